// What stands at the front of a text, and what follows it.
ghost use Rattle.std.specs.Prelude.{◌≡◌, ◌<◌, ◌++◌, ℕ, List, IfSome, IfOk, length, option_map, encode_utf8_all};
ghost use Rattle.std.specs.Str.{chars, bytes_eq};
ghost use Rattle.xc_elements.specs.Fronts.{one, exactly, run, up_to};
ghost use Rattle.xc_elements.specs.Items.{is_nil, spells, spells_in_any_case};
ghost use Rattle.xc_elements.specs.Steps.Views.{lent_text, at_front, behind, is_in};

use std::alloc::{AllocError, Global};
use xc_chars::characters::{is_character, is_name_char, is_space};
use xc_lists::Text;

/// A class of characters that may stand in a row.
#[derive(Clone, Copy)]
pub(crate) enum Class {
    /// White space.
    Space,
    /// What a name has.
    Name,
    /// What a document may have, but for this mark.
    Between(char),
}

/// The first character, and the text behind it.
pub(crate) fn next_char(text: &str) -> Option<(char, &str)>
    ensures value { option_map (at_front (λ c. c)) result ≡ one (chars text.now) }
    ensures shorter { IfSome result (λ x. length x.1.now < length text.now) }
{
    let mut rest = text.chars();
    match rest.next() {
        Some(c) => Some((c, rest.as_str())),
        None => None,
    }
}

/// The part of a text before a rest of it.
fn text_before<'a>(text: &'a str, rest: &str) -> &'a str
    requires { (front : List ℕ) × (chars text.now ≡ front ++ chars rest.now) }
    ensures { (front : List ℕ) → chars text.now ≡ front ++ chars rest.now → chars result.now ≡ front }
{
    &text[..text.len() - rest.len()]
}

fn is_in(class: Class, c: char) -> bool
    ensures { result ≡ is_in class c }
{
    match class {
        Class::Space => is_space(c),
        Class::Name => is_name_char(c),
        Class::Between(mark) => is_character(c) && c != mark,
    }
}

/// The text behind these characters, where it begins with them.
pub(crate) fn exactly<'a>(text: &'a str, word: &[char]) -> Option<&'a str>
    ensures { option_map behind result ≡ exactly word.now (chars text.now) }
{
    let mut rest = text;
    for wanted in word {
        match next_char(rest) {
            Some((c, after)) => {
                if c != *wanted {
                    return None;
                }
                rest = after;
            }
            None => return None,
        }
    }
    Some(rest)
}

/// The characters of a class at the front of a text, up to the first that is not of it, and the text from there on.
pub(crate) fn run(text: &str, class: Class) -> Option<(&str, &str)>
    ensures { option_map (at_front lent_text) result ≡ run (is_in class) (chars text.now) }
{
    let mut rest = text;
    while let Some((c, after)) = next_char(rest) {
        if !is_in(class, c) {
            return Some((text_before(text, rest), rest));
        }
        rest = after;
    }
    None
}

/// The text before the first place at which the characters of a mark stand, and the text behind these.
pub(crate) fn up_to<'a>(text: &'a str, mark: &[char]) -> Option<(&'a str, &'a str)>
    ensures { option_map (at_front lent_text) result ≡ up_to mark.now (chars text.now) }
{
    let mut rest = text;
    while let Some((c, after)) = next_char(rest) {
        if let Some(end) = exactly(rest, mark) {
            return Some((text_before(text, rest), end));
        }
        if !is_character(c) {
            return None;
        }
        rest = after;
    }
    None
}

/// Whether a text is this word.
pub(crate) fn spells(text: &str, word: &[char]) -> bool
    ensures { result ≡ spells (chars text.now) word.now }
{
    match exactly(text, word) {
        Some(rest) => is_nothing(rest),
        None => false,
    }
}

/// Whether a text is empty.
pub(crate) fn is_nothing(text: &str) -> bool
    ensures { result ≡ is_nil (chars text.now) }
{
    match next_char(text) {
        Some(_) => false,
        None => true,
    }
}

/// Whether a text is this word of small letters, written in capital or small letters of ASCII.
pub(crate) fn spells_in_any_case(text: &str, word: &[char]) -> bool
    ensures { result ≡ spells_in_any_case (chars text.now) word.now }
{
    let mut rest = text;
    for wanted in word {
        match next_char(rest) {
            Some((c, after)) => {
                if c.to_ascii_lowercase() != *wanted {
                    return false;
                }
                rest = after;
            }
            None => return false,
        }
    }
    is_nothing(rest)
}

/// Whether two texts are the same.
pub(crate) fn same_text(one: &str, other: &str) -> bool
    ensures { result ≡ bytes_eq (chars one.now) (chars other.now) }
{
    one == other
}

/// A text in memory of its own.
pub(crate) fn copy_of(alloc: Global, text: &str) -> Result<Text, AllocError>
    ensures bytes { IfOk result (λ copy. copy ≡ text.now) }
    ensures characters { IfOk result (λ copy. copy ≡ encode_utf8_all (chars text.now)) }
{
    Ok(Text::of(String::from_str(alloc, text)?))
}
