// References to characters.
ghost use Rattle.std.specs.Prelude.{◌≡◌, ◌≤◌, option_map, if◌then◌else◌};
ghost use Rattle.std.specs.Str.{chars};
ghost use Rattle.xc_chars.specs.Characters.{is_character};
ghost use Rattle.xc_elements.specs.Fronts.{one};
ghost use Rattle.xc_elements.specs.Items.{character_numbered, character_by_mark, character_by_hash, referent, reference};
ghost use Rattle.xc_elements.specs.Steps.Views.{at_front};

use crate::texts::{is_nothing, next_char, spells, up_to};
use xc_chars::characters::is_character;

/// The character that a reference names, of which the ampersand has been read, and the text behind the reference.
#[tactic(auto, unfolding(crate::specs::Fronts::followed_by, crate::specs::Fronts::give, crate::specs::Fronts::refuse, crate::specs::Items::reference))]
pub(crate) fn reference(text: &str) -> Option<(char, &str)>
    ensures { option_map (at_front (λ c. c)) result ≡ reference (chars text.now) }
{
    match up_to(text, &[';']) {
        Some((name, rest)) => match referent(name) {
            Some(c) => Some((c, rest)),
            None => None,
        },
        None => None,
    }
}

/// The character that stands for what is written between `&` and `;`.
#[tactic(auto, unfolding(crate::specs::Items::referent))]
fn referent(name: &str) -> Option<char>
    ensures { result ≡ referent (chars name.now) }
{
    if spells(name, &['l', 't']) {
        Some('<')
    } else if spells(name, &['g', 't']) {
        Some('>')
    } else if spells(name, &['a', 'm', 'p']) {
        Some('&')
    } else if spells(name, &['q', 'u', 'o', 't']) {
        Some('"')
    } else if spells(name, &['a', 'p', 'o', 's']) {
        Some('\'')
    } else {
        numbered_referent(name)
    }
}

/// The character that `#x41` or `#65` names.
fn numbered_referent(name: &str) -> Option<char>
    ensures { result ≡ character_by_hash (one (chars name.now)) }
{
    match next_char(name) {
        Some((c, rest)) => if c == '#' { behind_hash(rest) } else { None },
        None => None,
    }
}

fn behind_hash(text: &str) -> Option<char>
    ensures { result ≡ character_by_mark (one (chars text.now)) (chars text.now) }
{
    match next_char(text) {
        Some((c, digits)) => if c == 'x' {
            character_numbered(16, digits)
        } else {
            character_numbered(10, text)
        },
        None => None,
    }
}

/// The character whose number these digits are.
fn character_numbered(base: u32, digits: &str) -> Option<char>
    requires low { 2 ≤ base }
    requires high { base ≤ 16 }
    ensures { result ≡ character_numbered base (chars digits.now) }
{
    if is_nothing(digits) {
        return None;
    }
    let mut number = 0;
    let mut rest = digits;
    while let Some((c, after)) = next_char(rest) {
        let Some(digit) = c.to_digit(base) else {
            return None;
        };
        number = number * base + digit;
        if number > 0x10FFFF {
            return None;
        }
        rest = after;
    }
    character_of_number(number)
}

/// The character of this number, if a document may have it.
#[tactic(auto, unfolding(xc_chars::specs::Characters::is_character))]
fn character_of_number(number: u32) -> Option<char>
    ensures { result ≡ (if is_character number then Some number else None) }
{
    match char::from_u32(number) {
        Some(c) => if is_character(c) { Some(c) } else { None },
        None => None,
    }
}
