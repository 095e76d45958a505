// The declaration with which a document may begin.
ghost use Rattle.std.specs.Prelude.{◌≡◌, IfSome, option_map};
ghost use Rattle.std.specs.Str.{chars};
ghost use Rattle.xc_elements.specs.Fronts.{sequence, ending};
ghost use Rattle.xc_elements.specs.Items.{is_known_encoding, may_declare, part, part_or_end, declaration};
ghost use Rattle.xc_elements.specs.Steps.Views.{at_front, item_view, IsReadableItem, behind, part_or_end_view};

use crate::attributes::{equals_sign, quote};
use crate::items::Item;
use crate::names::plain_name;
use crate::texts::{Class, exactly, is_nothing, next_char, run, spells, spells_in_any_case};

/// The declaration, of which the `<?xml` has been read, and the text behind it.
#[tactic(auto, unfolding(crate::specs::Fronts::followed_by, crate::specs::Fronts::give, crate::specs::Items::declaration))]
pub(crate) fn declaration(text: &str) -> Option<(Item<'_>, &str)>
    ensures value { option_map (at_front item_view) result ≡ declaration (chars text.now) }
    ensures readable { IfSome result (λ x. IsReadableItem x.0) }
{
    match declaration_end(text) {
        Some(rest) => Some((Item::Declaration, rest)),
        None => None,
    }
}

/// The text behind the end of the declaration.
fn declaration_end(text: &str) -> Option<&str>
    ensures { option_map behind result ≡ option_map ending (sequence part_or_end (chars text.now)) }
{
    let mut rest = text;
    while let Some((is_last, after)) = part_or_end(rest) {
        if is_last {
            return Some(after);
        }
        rest = after;
    }
    None
}

/// Whether the declaration ends here, and the text behind the end, or behind the part that stands here.
#[tactic(auto, unfolding(crate::specs::Fronts::followed_by, crate::specs::Fronts::give, crate::specs::Fronts::refuse, crate::specs::Fronts::by_next, crate::specs::Items::part_or_end))]
fn part_or_end(text: &str) -> Option<(bool, &str)>
    ensures { option_map (at_front part_or_end_view) result ≡ part_or_end (chars text.now) }
{
    let Some((spaces, rest)) = run(text, Class::Space) else {
        return None;
    };
    let Some((c, after)) = next_char(rest) else {
        return None;
    };
    if c == '?' {
        match exactly(after, &['>']) {
            Some(rest) => Some((true, rest)),
            None => None,
        }
    } else if is_nothing(spaces) {
        None
    } else {
        match part(rest) {
            Some(rest) => Some((false, rest)),
            None => None,
        }
    }
}

/// The text behind a part of the declaration.
#[tactic(auto, unfolding(crate::specs::Fronts::followed_by, crate::specs::Fronts::give, crate::specs::Fronts::refuse, crate::specs::Fronts::by_next, crate::specs::Items::part))]
fn part(text: &str) -> Option<&str>
    ensures { option_map behind result ≡ part (chars text.now) }
{
    let Some((name, rest)) = plain_name(text) else {
        return None;
    };
    let Some(rest) = equals_sign(rest) else {
        return None;
    };
    let Some((mark, rest)) = quote(rest) else {
        return None;
    };
    let Some((value, rest)) = run(rest, Class::Between(mark)) else {
        return None;
    };
    match exactly(rest, &[mark]) {
        Some(rest) => {
            if may_declare(name, value) {
                Some(rest)
            } else {
                None
            }
        }
        None => None,
    }
}

/// Whether a part of this name may have this value.
fn may_declare(name: &str, value: &str) -> bool
    ensures { result ≡ may_declare (chars name.now) (chars value.now) }
{
    !spells(name, &['e', 'n', 'c', 'o', 'd', 'i', 'n', 'g']) || is_known_encoding(value)
}

/// Whether a document that names this encoding is read.
fn is_known_encoding(value: &str) -> bool
    ensures { result ≡ is_known_encoding (chars value.now) }
{
    spells_in_any_case(value, &['u', 't', 'f', '-', '8'])
        || spells_in_any_case(value, &['u', 's', '-', 'a', 's', 'c', 'i', 'i'])
        || spells_in_any_case(value, &['a', 's', 'c', 'i', 'i'])
}
