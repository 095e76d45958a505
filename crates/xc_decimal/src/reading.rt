// Decimal texts.
ghost use Rattle.std.specs.Prelude.{◌≡◌, ◌≢◌, ℕ, List, codes, ◌≤◌, ◌<◌, ◌^◌, ◌+◌, ◌++◌, Option, IfSome, pos, unsigned_abs, length, position};
ghost use Rattle.std.specs.List.{before_first, after_first};
ghost use Rattle.std.specs.Option.{SomeIff};
ghost use Rattle.xc_decimal.specs.Answers.{IsReading, Answers, IsNarrowed};
ghost use Rattle.xc_decimal.specs.Decimals.{Spells, signed};
ghost use Rattle.xc_decimal.specs.Numbers.{reading};
ghost use Rattle.xc_decimal.specs.Digits.{AreDigits, number_of};
ghost use Rattle.xc_decimal.specs.Reading.{digits_of, is_negative, unsigned, is_point, are_parts, trimmed, joined, of_parts};

use crate::decimal::{Decimal, DecimalFault};
use crate::digits::{are_digits, number_behind, signed};

/// The number that a text spells: an optional sign, then digits, digits and a point, digits around a
/// point, or a point and digits (`xs:decimal` of XML Schema, without white space around it).
///
/// `NotDecimal` comes exactly where the text is none of these, `Wide` exactly where it is one whose
/// digits exceed 2^126 in magnitude or whose places exceed 37, leading zeros and trailing zeros of
/// the fraction left aside. Takes no memory.
pub fn read_decimal(text: &str) -> Result<Decimal, DecimalFault>
    ensures reads { IsReading text.now result }
    // the same by the digits and places that compute from the text
    ensures answers { Answers result (digits_of text.now) }
    // and as a function of the text
    ensures number { result ≡ reading text.now }
{
    let (negative, rest) = without_sign(text.as_bytes());
    let (whole, fraction) = around_point(rest);
    if !are_parts(whole, fraction) {
        return Err(DecimalFault::NotDecimal);
    }
    match narrow(negative, whole, trimmed(fraction)) {
        Some(number) => Ok(number),
        None => Err(DecimalFault::Wide),
    }
}

// Whether a text begins with `-`, and what stands behind its sign.
fn without_sign(text: &[u8]) -> (bool, &[u8])
    ensures negative { result.0 ≡ is_negative text.now }
    ensures rest { result.1.now ≡ unsigned text.now }
{
    match text {
        [b'-', rest @ ..] => (true, rest),
        [b'+', rest @ ..] => (false, rest),
        _ => (false, text),
    }
}

// What stands before the first point and after it; all and nothing where there is none.
fn around_point(text: &[u8]) -> (&[u8], &[u8])
    ensures before { result.0.now ≡ before_first is_point text.now }
    ensures after { result.1.now ≡ after_first is_point text.now }
{
    match point_at(text) {
        Some(at) => (&text[..at], &text[at + 1..]),
        None => (text, &[]),
    }
}

// Where the first point is.
fn point_at(text: &[u8]) -> Option<usize>
    ensures { result ≡ position is_point text.now }
{
    text.iter().position(|c| *c == b'.')
}

fn are_parts(whole: &[u8], fraction: &[u8]) -> bool
    ensures { result ≡ are_parts whole.now fraction.now }
{
    are_digits(whole) && are_digits(fraction) && !(whole.is_empty() && fraction.is_empty())
}

// Digits without the zeros at their end.
fn trimmed(digits: &[u8]) -> &[u8]
    ensures { result.now ≡ trimmed digits.now }
{
    let mut kept = digits;
    while let [front @ .., b'0'] = kept {
        kept = front;
    }
    kept
}

// The number of these digits, whose fraction part does not end in 0, where it is not wide.
fn narrow(negative: bool, whole: &[u8], kept: &[u8]) -> Option<Decimal>
    requires whole { AreDigits whole.now }
    requires kept { AreDigits kept.now }
    requires last { (front : List ℕ) → kept.now ≢ front ++ codes "0" }
    ensures { IsNarrowed (joined negative whole.now kept.now) result }
{
    let Some(before) = number_behind(0, whole, MOST) else {
        return None;
    };
    let Some(number) = number_behind(before, kept, MOST) else {
        return None;
    };
    if kept.len() > MOST_PLACES {
        return None;
    }
    Some(Decimal::shortest(signed(negative, number), kept.len() as u32))
}

// The greatest digits, 2^126, and the most places.
const MOST: u128 = 1 << 126;

const MOST_PLACES: usize = 37;
