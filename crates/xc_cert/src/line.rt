// Lines of certificates, each by itself.
ghost use Rattle.std.specs.Prelude.{◌≡◌, ◌==◌, ◌<◌, ◌^◌, pos, position, option_map, unsigned_abs, int_lt};
ghost use Rattle.std.specs.Option.{SomeIff};
ghost use Rattle.xc_cert.specs.Steps.Lines.{IsCut, IsWord, IsNumber, IsWhole, IsNumbered, Says};

use xc_decimal::read_frac;
use xc_frac::Frac;

/// What a line says.
#[derive(Clone, Copy)]
pub enum Line {
    /// `certificate 1`
    Opening,
    /// `feasible`
    Feasible,
    /// `infeasible`
    Infeasible,
    /// `end`
    End,
    /// A word, a number and a fraction.
    Numbered(Word, u32, Frac),
    /// Anything else.
    Other,
}

/// The first word of a line with a number.
#[derive(Clone, Copy)]
pub enum Word {
    Value,
    Binding,
    Low,
    High,
}

/// What stands before the first such byte, and what stands behind it.
pub fn cut(text: &[u8], byte: u8) -> Option<(&[u8], &[u8])>
    ensures { IsCut byte text.now (option_map (λ parts. (parts.0.now, parts.1.now)) result) }
{
    match byte_place(text, byte) {
        Some(at) => Some((&text[..at], &text[at + 1..])),
        None => None,
    }
}

// The place of the first such byte.
fn byte_place(text: &[u8], byte: u8) -> Option<usize>
    ensures { result ≡ position (λ b. b == byte) text.now }
{
    text.iter().position(|b| *b == byte)
}

/// What a line says.
pub fn line_of(text: &[u8]) -> Line
    ensures { Says text.now result }
{
    if text == b"certificate 1".as_slice() {
        return Line::Opening;
    }
    if text == b"feasible".as_slice() {
        return Line::Feasible;
    }
    if text == b"infeasible".as_slice() {
        return Line::Infeasible;
    }
    if text == b"end".as_slice() {
        return Line::End;
    }
    match numbered_parts(text) {
        Some((word, number, fraction)) => Line::Numbered(word, number, fraction),
        None => Line::Other,
    }
}

// The word, the number and the fraction of a line that has nothing else.
fn numbered_parts(text: &[u8]) -> Option<(Word, u32, Frac)>
    ensures { IsNumbered text.now result }
{
    let Some((word, rest)) = cut(text, b' ') else {
        return None;
    };
    let Some((number, fraction)) = cut(rest, b' ') else {
        return None;
    };
    let Some(word) = word_of(word) else {
        return None;
    };
    let Some(number) = number_of(number) else {
        return None;
    };
    let Some(fraction) = read_frac(fraction) else {
        return None;
    };
    Some((word, number, fraction))
}

// The word that a text is.
fn word_of(text: &[u8]) -> Option<Word>
    ensures { IsWord text.now result }
{
    if text == b"value".as_slice() {
        return Some(Word::Value);
    }
    if text == b"binding".as_slice() {
        return Some(Word::Binding);
    }
    if text == b"low".as_slice() {
        return Some(Word::Low);
    }
    if text == b"high".as_slice() {
        return Some(Word::High);
    }
    None
}

// The number that a text spells without leading zeros, where it is below 2^32.
fn number_of(text: &[u8]) -> Option<u32>
    ensures { IsNumber text.now result }
{
    match read_frac(text) {
        Some(value) => whole_number(value),
        None => None,
    }
}

// The number that a fraction is, where it is below 2^32.
fn whole_number(value: Frac) -> Option<u32>
    ensures { IsWhole value result }
{
    if denominator(value) != 1 {
        return None;
    }
    if is_negative(value) {
        return None;
    }
    narrow(magnitude(value))
}

fn denominator(value: Frac) -> u128
    ensures { result ≡ unsigned_abs value.den }
{
    value.den().unsigned_abs()
}

fn is_negative(value: Frac) -> bool
    ensures { result ≡ int_lt value.num (pos 0) }
{
    value.num() < 0
}

fn magnitude(value: Frac) -> u128
    ensures { result ≡ unsigned_abs value.num }
{
    value.num().unsigned_abs()
}

// The number, where it is below 2^32.
fn narrow(number: u128) -> Option<u32>
    ensures { SomeIff result (number < 2 ^ 32) number }
{
    if number < 1 << 32 {
        Some(number as u32)
    } else {
        None
    }
}
