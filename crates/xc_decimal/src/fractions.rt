// Fractions as texts: the numerator, and where it is not 1 the denominator behind `/`.
ghost use Rattle.std.specs.Prelude.{◌≡◌, ◌≢◌, ◌++◌, ◌↔◌, ◌<◌, ◌^◌, ℕ, ℤ, pos, Some, None, OnOk, OnErr, codes, position, decimal, unsigned_abs};
ghost use Rattle.std.specs.Fmt.{signed_decimal};
ghost use Rattle.xc_model.specs.Ratio.{Ratio};
ghost use Rattle.xc_model.specs.Width.{IsNarrow};
ghost use Rattle.xc_decimal.specs.Reading.{is_negative};
ghost use Rattle.xc_decimal.specs.Spelling.{spelling, ends_numerator, is_numeral, without_minus, IsIntegerOf, IsNaturalOf};

use crate::digits::{are_digits, number_behind, signed};
use std::alloc::Global;
use xc_frac::{Frac, ratio};
use xc_lists::Memory;

/// Appends the one spelling of a fraction: its numerator where the denominator is 1, and else
/// numerator, `/`, denominator, in lowest terms and without leading zeros; a negative one begins with
/// `-`. After want of memory `out` is as before.
pub fn write_frac(alloc: Global, out: &mut Vec<u8>, value: Frac) -> Result<(), Memory>
    ensures written { OnOk result (out.new.items ≡ out.old.items ++ spelling value) }
    ensures kept { OnErr result (out.new.items ≡ out.old.items) }
{
    let text = if value.den() == 1 {
        format!(in alloc; "{}", value.num())?
    } else {
        format!(in alloc; "{}/{}", value.num(), value.den())?
    };
    out.extend_from_slice(text.as_bytes())?;
    Ok(())
}

/// The fraction that bytes spell as `write_frac` does; `None` exactly where they are no such spelling.
pub fn read_frac(text: &[u8]) -> Option<Frac>
    ensures { (f : Ratio) → (result ≡ Some f) ↔ (text.now ≡ spelling f) }
{
    match slash_at(text) {
        Some(at) => over(&text[..at], &text[at + 1..]),
        None => whole(text),
    }
}

// Where the first `/` is.
fn slash_at(text: &[u8]) -> Option<usize>
    ensures { result ≡ position ends_numerator text.now }
{
    text.iter().position(|c| *c == b'/')
}

// The fraction of a numerator alone.
fn whole(num: &[u8]) -> Option<Frac>
    ensures { (f : Ratio) → (result ≡ Some f) ↔ ((num.now ≡ signed_decimal f.num) × (f.den ≡ pos 1)) }
{
    match integer(num) {
        Some(num) => lowest(num, 1),
        None => None,
    }
}

// The fraction of a numerator and a denominator other than 1.
fn over(num: &[u8], den: &[u8]) -> Option<Frac>
    ensures { (f : Ratio) → (result ≡ Some f)
        ↔ ((num.now ≡ signed_decimal f.num) × (den.now ≡ decimal (unsigned_abs f.den)) × (f.den ≢ pos 1)) }
{
    let Some(num) = integer(num) else {
        return None;
    };
    let Some(den) = natural(den) else {
        return None;
    };
    if den < 2 { None } else { lowest(num, den) }
}

// num / den, where it is in lowest terms already.
fn lowest(num: i128, den: u128) -> Option<Frac>
    requires num { IsNarrow num }
    requires den { den < 2 ^ 127 }
    requires positive { 0 < den }
    ensures { (f : Ratio) → (result ≡ Some f) ↔ ((f.num ≡ num) × (f.den ≡ pos den)) }
{
    let value = ratio(num, den);
    if value.den().unsigned_abs() == den {
        Some(value)
    } else {
        None
    }
}

// The whole number that a text spells without leading zeros, where it fits.
fn integer(text: &[u8]) -> Option<i128>
    ensures { IsIntegerOf text.now result }
{
    let (negative, digits) = without_minus(text);
    let Some(number) = natural(digits) else {
        return None;
    };
    if negative && number == 0 {
        return None;
    }
    Some(signed(negative, number))
}

// Whether a text begins with `-`, and what stands behind it.
fn without_minus(text: &[u8]) -> (bool, &[u8])
    ensures negative { result.0 ≡ is_negative text.now }
    ensures rest { result.1.now ≡ without_minus text.now }
{
    match text {
        [b'-', rest @ ..] => (true, rest),
        _ => (false, text),
    }
}

// The same without a sign.
fn natural(digits: &[u8]) -> Option<u128>
    ensures { IsNaturalOf digits.now result }
{
    if !is_numeral(digits) {
        return None;
    }
    number_behind(0, digits, MOST)
}

// The greatest numerator or denominator: 2^127 - 1.
const MOST: u128 = (1 << 127) - 1;

// Whether a text is digits without leading zeros: `0` alone, or digits that begin with another.
fn is_numeral(text: &[u8]) -> bool
    ensures { result ≡ is_numeral text.now }
{
    match text {
        [] => false,
        [b'0', rest @ ..] => rest.is_empty(),
        digits => are_digits(digits),
    }
}
