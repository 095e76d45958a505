// The items of a document.
ghost use Rattle.std.specs.Prelude.{◌≡◌, IfSome, option_map};
ghost use Rattle.std.specs.Str.{chars};
ghost use Rattle.xc_elements.specs.Items.{instruction_rest, behind_target, instruction, comment, section, comment_or_section, markup, letter, item};
ghost use Rattle.xc_elements.specs.Steps.Views.{at_front, item_view, IsReadableItem};

use crate::declarations::declaration;
use crate::names::{QualifiedName, plain_name};
use crate::references::reference;
use crate::tags::{Tag, end_tag, tag_at};
use crate::texts::{exactly, next_char, spells, spells_in_any_case, up_to};
use xc_chars::characters::{is_character, is_space};

/// An item of a document.
#[derive(Clone, Copy, Debug, PartialEq, Eq)]
pub(crate) enum Item<'a> {
    /// `<?xml ..?>`, at the start of the document.
    Declaration,
    /// `<name ..>`
    Start(Tag<'a>),
    /// `<name ../>`
    Empty(Tag<'a>),
    /// `</name>`
    End(QualifiedName<'a>),
    /// `<!--..-->`
    Comment,
    /// `<?target ..?>`
    Instruction,
    /// The characters in `<![CDATA[..]]>`, as they are written.
    Section(&'a str),
    /// A character that stands for itself.
    Letter(char),
    /// The character that `&name;`, `&#65;` or `&#x41;` stands for.
    Reference(char),
}

/// The item at the front of a text, and the text behind it. The text may be that of a whole document, or what follows its
/// first items.
#[tactic(auto, unfolding(crate::specs::Fronts::followed_by, crate::specs::Fronts::give, crate::specs::Fronts::refuse, crate::specs::Fronts::by_next, crate::specs::Items::item))]
pub(crate) fn item_at(text: &str, is_first: bool) -> Option<(Item<'_>, &str)>
    ensures value { option_map (at_front item_view) result ≡ item is_first (chars text.now) }
    ensures readable { IfSome result (λ x. IsReadableItem x.0) }
{
    let Some((c, rest)) = next_char(text) else {
        return None;
    };
    if c == '<' {
        markup(rest, is_first)
    } else if c == '&' {
        match reference(rest) {
            Some((referent, rest)) => Some((Item::Reference(referent), rest)),
            None => None,
        }
    } else {
        letter(text)
    }
}

#[tactic(auto, unfolding(crate::specs::Fronts::followed_by, crate::specs::Fronts::give, crate::specs::Fronts::refuse, crate::specs::Fronts::by_next, crate::specs::Items::letter))]
fn letter(text: &str) -> Option<(Item<'_>, &str)>
    ensures value { option_map (at_front item_view) result ≡ letter (chars text.now) }
    ensures readable { IfSome result (λ x. IsReadableItem x.0) }
{
    match next_char(text) {
        Some((c, rest)) => {
            if is_character(c) {
                Some((Item::Letter(c), rest))
            } else {
                None
            }
        }
        None => None,
    }
}

/// What begins with the `<` that has been read.
#[tactic(auto, unfolding(crate::specs::Fronts::followed_by, crate::specs::Fronts::give, crate::specs::Fronts::refuse, crate::specs::Fronts::by_next, crate::specs::Items::markup))]
fn markup(text: &str, is_first: bool) -> Option<(Item<'_>, &str)>
    ensures value { option_map (at_front item_view) result ≡ markup is_first (chars text.now) }
    ensures readable { IfSome result (λ x. IsReadableItem x.0) }
{
    let Some((c, rest)) = next_char(text) else {
        return None;
    };
    if c == '/' {
        end_tag(rest)
    } else if c == '?' {
        instruction(rest, is_first)
    } else if c == '!' {
        comment_or_section(rest)
    } else {
        tag_at(text)
    }
}

/// An instruction or the declaration, of which the `<?` has been read.
#[tactic(auto, unfolding(crate::specs::Fronts::followed_by, crate::specs::Fronts::give, crate::specs::Fronts::refuse, crate::specs::Fronts::by_next, crate::specs::Items::instruction))]
fn instruction(text: &str, is_first: bool) -> Option<(Item<'_>, &str)>
    ensures value { option_map (at_front item_view) result ≡ instruction is_first (chars text.now) }
    ensures readable { IfSome result (λ x. IsReadableItem x.0) }
{
    let Some((target, rest)) = plain_name(text) else {
        return None;
    };
    if !spells_in_any_case(target, &['x', 'm', 'l']) {
        instruction_rest(rest)
    } else if is_first && spells(target, &['x', 'm', 'l']) {
        declaration(rest)
    } else {
        None
    }
}

/// An instruction, of which the target has been read.
#[tactic(auto, unfolding(crate::specs::Fronts::followed_by, crate::specs::Fronts::give, crate::specs::Fronts::refuse, crate::specs::Fronts::by_next, crate::specs::Items::instruction_rest))]
fn instruction_rest(text: &str) -> Option<(Item<'_>, &str)>
    ensures value { option_map (at_front item_view) result ≡ instruction_rest (chars text.now) }
    ensures readable { IfSome result (λ x. IsReadableItem x.0) }
{
    let Some((c, _)) = next_char(text) else {
        return None;
    };
    if is_space(c) {
        match up_to(text, &['?', '>']) {
            Some((_, rest)) => Some((Item::Instruction, rest)),
            None => None,
        }
    } else {
        match exactly(text, &['?', '>']) {
            Some(rest) => Some((Item::Instruction, rest)),
            None => None,
        }
    }
}

/// A comment or a section, of which the `<!` has been read.
#[tactic(auto, unfolding(crate::specs::Fronts::followed_by, crate::specs::Fronts::give, crate::specs::Fronts::refuse, crate::specs::Fronts::by_next, crate::specs::Items::comment_or_section))]
fn comment_or_section(text: &str) -> Option<(Item<'_>, &str)>
    ensures value { option_map (at_front item_view) result ≡ comment_or_section (chars text.now) }
    ensures readable { IfSome result (λ x. IsReadableItem x.0) }
{
    let Some((c, _)) = next_char(text) else {
        return None;
    };
    if c == '-' {
        match exactly(text, &['-', '-']) {
            Some(rest) => comment(rest),
            None => None,
        }
    } else {
        match exactly(text, &['[', 'C', 'D', 'A', 'T', 'A', '[']) {
            Some(rest) => section(rest),
            None => None,
        }
    }
}

/// A comment, of which the `<!--` has been read.
#[tactic(auto, unfolding(crate::specs::Fronts::followed_by, crate::specs::Fronts::give, crate::specs::Fronts::refuse, crate::specs::Fronts::by_next, crate::specs::Items::comment))]
fn comment(text: &str) -> Option<(Item<'_>, &str)>
    ensures value { option_map (at_front item_view) result ≡ comment (chars text.now) }
    ensures readable { IfSome result (λ x. IsReadableItem x.0) }
{
    let Some((_, rest)) = up_to(text, &['-', '-']) else {
        return None;
    };
    match exactly(rest, &['>']) {
        Some(rest) => Some((Item::Comment, rest)),
        None => None,
    }
}

/// A section of characters, of which the `<![CDATA[` has been read.
#[tactic(auto, unfolding(crate::specs::Fronts::followed_by, crate::specs::Fronts::give, crate::specs::Fronts::refuse, crate::specs::Fronts::by_next, crate::specs::Items::section))]
fn section(text: &str) -> Option<(Item<'_>, &str)>
    ensures value { option_map (at_front item_view) result ≡ section (chars text.now) }
    ensures readable { IfSome result (λ x. IsReadableItem x.0) }
{
    match up_to(text, &[']', ']', '>']) {
        Some((inside, rest)) => Some((Item::Section(inside), rest)),
        None => None,
    }
}
