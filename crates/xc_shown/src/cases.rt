// Files of cases.
//
// A line that begins with `= ` begins a part and has words for its subject; the lines behind it are
// the part's text. The text of a part `= let NAME` is put where a line `= use NAME` stands.

use std::alloc::{AllocError, Global};

/// A part of a file of cases.
#[derive(Drop)]
pub struct Part {
    pub words: String,
    pub text: String,
}

/// The parts of a file.
pub fn parts(alloc: Global, file: &str) -> Result<Vec<Part>, AllocError> {
    let mut parts = Vec::new(alloc);
    for line in file.lines() {
        put(alloc, &mut parts, line)?;
    }
    Ok(parts)
}

// Puts the next line of a file to its parts.
fn put(alloc: Global, parts: &mut Vec<Part>, line: &str) -> Result<(), AllocError> {
    let Some(words) = line.strip_prefix("= ") else {
        return put_text(parts, line);
    };
    match words.strip_prefix("use ") {
        Some(name) => {
            let text = text_of(alloc, parts.as_slice(), name)?;
            put_text(parts, text.as_str())
        }
        None => begin(alloc, parts, words),
    }
}

fn begin(alloc: Global, parts: &mut Vec<Part>, words: &str) -> Result<(), AllocError> {
    parts.push(Part {
        words: String::from_str(alloc, words)?,
        text: String::new(alloc),
    })?;
    Ok(())
}

// Puts a line to the text of the last part.
fn put_text(parts: &mut Vec<Part>, line: &str) -> Result<(), AllocError> {
    let Some(part) = parts.as_mut_slice().last_mut() else {
        return Ok(());
    };
    if !part.text.as_str().is_empty() {
        part.text.push('\n')?;
    }
    part.text.push_str(line)
}

// The text that has the name.
fn text_of(alloc: Global, parts: &[Part], name: &str) -> Result<String, AllocError> {
    for part in parts {
        if part.words.as_str().strip_prefix("let ") == Some(name) {
            return part.text.clone();
        }
    }
    Ok(String::new(alloc))
}
