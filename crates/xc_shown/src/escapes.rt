// Characters and bytes that would not be seen, as data and output spell them: a backslash and a letter.

use std::alloc::{AllocError, Global};

/// A text, with a backslash and a letter for each character that would not be seen.
pub fn push_escaped(out: &mut String, text: &str) -> Result<(), AllocError> {
    for c in text.chars() {
        match c {
            '\n' => out.push_str("\\n")?,
            '\r' => out.push_str("\\r")?,
            '\t' => out.push_str("\\t")?,
            _ => out.push(c)?,
        }
    }
    Ok(())
}

/// The bytes of a line of the data.
pub fn bytes_of_line(alloc: Global, line: &str) -> Result<Vec<u8>, AllocError> {
    let mut bytes = Vec::new(alloc);
    let mut is_escape = false;
    for piece in line.split('\\') {
        let text = if is_escape {
            put_escape(&mut bytes, piece)?
        } else {
            piece
        };
        bytes.extend_from_slice(text.as_bytes())?;
        is_escape = true;
    }
    Ok(bytes)
}

// Puts the bytes that a letter stands for, and hands on what follows it.
fn put_escape<'a>(bytes: &mut Vec<u8>, piece: &'a str) -> Result<&'a str, AllocError> {
    let mut rest = piece.chars();
    if let Some(letter) = rest.next() {
        bytes.extend_from_slice(bytes_of(letter))?;
    }
    Ok(rest.as_str())
}

fn bytes_of(letter: char) -> &'static [u8] {
    match letter {
        'n' => b"\n".as_slice(),
        'r' => b"\r".as_slice(),
        't' => b"\t".as_slice(),
        // a byte order mark
        'm' => b"\xEF\xBB\xBF".as_slice(),
        // a control character
        'c' => b"\x01".as_slice(),
        // the first of two bytes
        'h' => b"\xC3".as_slice(),
        // a byte that no text has
        _ => b"\xFF".as_slice(),
    }
}
