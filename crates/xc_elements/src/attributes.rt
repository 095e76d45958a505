// Attributes as they are written.
ghost use Rattle.std.specs.Prelude.{◌≡◌, IfOk, IfSome, encode_utf8_all, option_map};
ghost use Rattle.std.specs.Str.{chars};
ghost use Rattle.xc_elements.specs.Fronts.{sequence, ending};
ghost use Rattle.xc_elements.specs.Items.{equals_sign, quote, line_end, character_or_end, attribute};
ghost use Rattle.xc_elements.specs.Steps.Views.{at_front, value_view, attribute_view, IsReadable, behind, character_or_end_view};

use crate::names::{QualifiedName, qualified_name};
use crate::references::reference;
use crate::texts::{Class, exactly, next_char, run};
use std::alloc::{AllocError, Global};
use xc_chars::characters::is_character;
use xc_lists::Text;

/// The value of an attribute as it is written.
#[derive(Clone, Copy, Debug, PartialEq, Eq)]
pub(crate) struct WrittenValue<'a> {
    /// The quote that ends the value.
    pub(crate) mark: char,
    /// The document from the value's first character on.
    pub(crate) text: &'a str,
}

impl<'a> WrittenValue<'a> {
    /// The value, with the character of each reference, and a space for each end of a line and each tab that are written as
    /// characters.
    pub(crate) fn decode(&self, alloc: Global) -> Result<Text, AllocError>
        requires { IsReadable self.now }
        ensures { IfOk result (λ text. text ≡ encode_utf8_all (value_view self.now)) }
    {
        let mut value = String::new(alloc);
        let mut rest = self.text;
        while let Some((turn, after)) = character_or_end(rest, self.mark) {
            match turn {
                Some(c) => value.push(c)?,
                None => return Ok(Text::of(value)),
            }
            rest = after;
        }
        Ok(Text::of(value))
    }
}

/// An attribute as it is written.
#[derive(Clone, Copy, Debug, PartialEq, Eq)]
pub(crate) struct WrittenAttribute<'a> {
    pub(crate) name: QualifiedName<'a>,
    pub(crate) value: WrittenValue<'a>,
}

/// An attribute, and the text behind it.
#[tactic(auto, using(crate::proofs::StepLaws::value_ended, crate::proofs::StepLaws::value_endless, crate::proofs::StepLaws::value_readable), unfolding(crate::specs::Fronts::followed_by, crate::specs::Fronts::give, crate::specs::Fronts::refuse, crate::specs::Fronts::by_next, crate::specs::Items::attribute))]
pub(crate) fn attribute(text: &str) -> Option<(WrittenAttribute<'_>, &str)>
    ensures value { option_map (at_front attribute_view) result ≡ attribute (chars text.now) }
    ensures readable { IfSome result (λ x. IsReadable x.0.value) }
{
    let Some((name, rest)) = qualified_name(text) else {
        return None;
    };
    let Some(rest) = equals_sign(rest) else {
        return None;
    };
    let Some((mark, value)) = quote(rest) else {
        return None;
    };
    match value_end(value, mark) {
        Some(rest) => Some((
            WrittenAttribute {
                name,
                value: WrittenValue { mark, text: value },
            },
            rest,
        )),
        None => None,
    }
}

/// The text behind an equals sign and the white space around it.
#[tactic(auto, unfolding(crate::specs::Fronts::followed_by, crate::specs::Fronts::give, crate::specs::Fronts::refuse, crate::specs::Fronts::by_next, crate::specs::Items::equals_sign))]
pub(crate) fn equals_sign(text: &str) -> Option<&str>
    ensures { option_map behind result ≡ equals_sign (chars text.now) }
{
    let Some((_, rest)) = run(text, Class::Space) else {
        return None;
    };
    let Some(rest) = exactly(rest, &['=']) else {
        return None;
    };
    match run(rest, Class::Space) {
        Some((_, rest)) => Some(rest),
        None => None,
    }
}

/// A quotation mark or an apostrophe.
#[tactic(auto, unfolding(crate::specs::Fronts::followed_by, crate::specs::Fronts::give, crate::specs::Fronts::refuse, crate::specs::Fronts::by_next, crate::specs::Items::quote))]
pub(crate) fn quote(text: &str) -> Option<(char, &str)>
    ensures { option_map (at_front (λ c. c)) result ≡ quote (chars text.now) }
{
    match next_char(text) {
        Some((c, rest)) => {
            if c == '"' || c == '\'' {
                Some((c, rest))
            } else {
                None
            }
        }
        None => None,
    }
}

/// The text behind the quote that ends a value.
fn value_end(text: &str, mark: char) -> Option<&str>
    ensures { option_map behind result ≡ option_map ending (sequence (character_or_end mark) (chars text.now)) }
{
    let mut rest = text;
    while let Some((turn, after)) = character_or_end(rest, mark) {
        match turn {
            Some(_) => rest = after,
            None => return Some(after),
        }
    }
    None
}

/// What stands next in a value: a character, or the end at its mark.
#[tactic(auto, unfolding(crate::specs::Fronts::followed_by, crate::specs::Fronts::give, crate::specs::Fronts::refuse, crate::specs::Fronts::by_next, crate::specs::Items::character_or_end))]
fn character_or_end(text: &str, mark: char) -> Option<(Option<char>, &str)>
    ensures { option_map (at_front character_or_end_view) result ≡ character_or_end mark (chars text.now) }
{
    let Some((c, rest)) = next_char(text) else {
        return None;
    };
    if c == mark {
        Some((None, rest))
    } else if c == '&' {
        match reference(rest) {
            Some((referent, rest)) => Some((Some(referent), rest)),
            None => None,
        }
    } else if c == '\r' {
        line_end(rest)
    } else if c == '\t' || c == '\n' {
        Some((Some(' '), rest))
    } else if is_character(c) && c != '<' {
        Some((Some(c), rest))
    } else {
        None
    }
}

/// The space that a carriage return stands for, together with a line feed behind it.
#[tactic(auto, unfolding(crate::specs::Fronts::followed_by, crate::specs::Fronts::give, crate::specs::Fronts::refuse, crate::specs::Fronts::by_next, crate::specs::Items::line_end))]
fn line_end(text: &str) -> Option<(Option<char>, &str)>
    ensures { option_map (at_front character_or_end_view) result ≡ line_end (chars text.now) }
{
    match next_char(text) {
        Some(('\n', rest)) => Some((Some(' '), rest)),
        Some(_) => Some((Some(' '), text)),
        None => None,
    }
}
