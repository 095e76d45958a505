// Texts and numbers in lines.
ghost use Rattle.std.specs.Prelude.{◌≡◌, ◌<◌, ◌++◌, IfOk, OnOk, decimal, string_bytes};
ghost use Rattle.xc_lines.specs.Lines.{printed_text, printed_char, is_escaped, hex_digit};

use std::alloc::{AllocError, Global};

/// A text as it is printed in a line: each character up to the space, `%` and the delete character as `%` and two
/// hexadecimal digits in capitals, the empty text as `%`. The only error is want of memory.
pub fn printed_text(alloc: Global, text: &str) -> Result<String, AllocError>
    ensures printed { IfOk result (λ out. string_bytes out ≡ printed_text text.now) }
{
    let mut out = String::new(alloc);
    push_text(&mut out, text)?;
    Ok(out)
}

/// Appends a text as it is printed.
pub(crate) fn push_text(out: &mut String, text: &str) -> Result<(), AllocError>
    ensures { OnOk result (string_bytes out.new ≡ string_bytes out.old ++ printed_text text.now) }
{
    if text.is_empty() {
        return out.push('%');
    }
    for c in text.chars() {
        push_char(out, c)?;
    }
    Ok(())
}

fn push_char(out: &mut String, c: char) -> Result<(), AllocError>
    ensures { OnOk result (string_bytes out.new ≡ string_bytes out.old ++ printed_char c) }
{
    if !is_escaped(c) {
        return out.push(c);
    }
    let code = c as u32;
    out.push('%')?;
    out.push(hex_digit(code / 16))?;
    out.push(hex_digit(code % 16))
}

fn is_escaped(c: char) -> bool
    ensures { result ≡ is_escaped c }
{
    c <= ' ' || c == '%' || c == '\u{7F}'
}

// A digit of base 16, in capitals.
fn hex_digit(digit: u32) -> char
    requires { digit < 16 }
    ensures { result ≡ hex_digit digit }
{
    if digit < 10 {
        char::from(b'0' + digit as u8)
    } else {
        char::from(b'A' + (digit - 10) as u8)
    }
}

/// Appends a number, decimal without leading zeros.
pub(crate) fn push_number(out: &mut String, number: usize) -> Result<(), AllocError>
    ensures { OnOk result (string_bytes out.new ≡ string_bytes out.old ++ decimal number) }
{
    write!(out, "{number}")
}
