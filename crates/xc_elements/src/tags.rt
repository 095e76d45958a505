// Tags.
ghost use Rattle.std.specs.Prelude.{◌≡◌, IfSome, option_map};
ghost use Rattle.std.specs.Str.{chars};
ghost use Rattle.xc_elements.specs.Fronts.{ending};
ghost use Rattle.xc_elements.specs.Items.{attribute_or_end, tag_rest, tag, end_tag};
ghost use Rattle.xc_elements.specs.Steps.Views.{at_front, tag_part_view, item_view, IsReadablePart, IsReadableItem};

use crate::attributes::{WrittenAttribute, attribute};
use crate::items::Item;
use crate::names::{QualifiedName, qualified_name};
use crate::texts::{Class, exactly, is_nothing, next_char, run};

/// A start tag or an empty tag.
#[derive(Clone, Copy, Debug, PartialEq, Eq)]
pub(crate) struct Tag<'a> {
    pub(crate) name: QualifiedName<'a>,
    /// The document from behind the name on, at whose front the attributes stand.
    pub(crate) attributes: &'a str,
}

/// What stands next behind a tag's name.
#[derive(Clone, Copy, Debug, PartialEq, Eq)]
pub(crate) enum TagPart<'a> {
    Attribute(WrittenAttribute<'a>),
    /// The end of the tag, which may be the end of its element too.
    End(bool),
}

/// What stands next behind a tag's name, and the text behind it.
#[tactic(auto, unfolding(crate::specs::Fronts::followed_by, crate::specs::Fronts::give, crate::specs::Fronts::refuse, crate::specs::Fronts::by_next, crate::specs::Items::attribute_or_end))]
pub(crate) fn attribute_or_end(text: &str) -> Option<(TagPart<'_>, &str)>
    ensures value { option_map (at_front tag_part_view) result ≡ attribute_or_end (chars text.now) }
    ensures readable { IfSome result (λ x. IsReadablePart x.0) }
{
    let Some((spaces, rest)) = run(text, Class::Space) else {
        return None;
    };
    let Some((c, after)) = next_char(rest) else {
        return None;
    };
    if c == '>' {
        Some((TagPart::End(false), after))
    } else if c == '/' {
        match exactly(after, &['>']) {
            Some(rest) => Some((TagPart::End(true), rest)),
            None => None,
        }
    } else if is_nothing(spaces) {
        None
    } else {
        match attribute(rest) {
            Some((attribute, rest)) => Some((TagPart::Attribute(attribute), rest)),
            None => None,
        }
    }
}

/// Whether a tag whose attributes stand here is empty, and the text behind the tag.
fn tag_end(text: &str) -> Option<(bool, &str)>
    ensures { option_map (at_front (λ is_empty. is_empty)) result ≡ option_map ending (tag_rest (chars text.now)) }
{
    let mut rest = text;
    while let Some((part, after)) = attribute_or_end(rest) {
        match part {
            TagPart::Attribute(_) => rest = after,
            TagPart::End(is_empty) => return Some((is_empty, after)),
        }
    }
    None
}

/// A start tag or an empty tag, of which the `<` has been read, and the text behind it.
#[tactic(auto, using(crate::proofs::StepLaws::tag_ended), unfolding(crate::specs::Fronts::followed_by, crate::specs::Fronts::give, crate::specs::Items::tag))]
pub(crate) fn tag_at(text: &str) -> Option<(Item<'_>, &str)>
    ensures value { option_map (at_front item_view) result ≡ tag (chars text.now) }
    ensures readable { IfSome result (λ x. IsReadableItem x.0) }
{
    let Some((name, attributes)) = qualified_name(text) else {
        return None;
    };
    match tag_end(attributes) {
        Some((is_empty, rest)) => {
            let tag = Tag { name, attributes };
            if is_empty {
                Some((Item::Empty(tag), rest))
            } else {
                Some((Item::Start(tag), rest))
            }
        }
        None => None,
    }
}

/// An end tag, of which the `</` has been read, and the text behind it.
#[tactic(auto, unfolding(crate::specs::Fronts::followed_by, crate::specs::Fronts::give, crate::specs::Fronts::refuse, crate::specs::Fronts::by_next, crate::specs::Items::end_tag))]
pub(crate) fn end_tag(text: &str) -> Option<(Item<'_>, &str)>
    ensures value { option_map (at_front item_view) result ≡ end_tag (chars text.now) }
    ensures readable { IfSome result (λ x. IsReadableItem x.0) }
{
    let Some((name, rest)) = qualified_name(text) else {
        return None;
    };
    let Some((_, rest)) = run(rest, Class::Space) else {
        return None;
    };
    match exactly(rest, &['>']) {
        Some(rest) => Some((Item::End(name), rest)),
        None => None,
    }
}
