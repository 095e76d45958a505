// Whole runs in memory, in which a fetch or a put fails.
//
// `= file NAME` gives a file, whose bytes are its text. `= run FETCH PUT ROOM WORDS` runs the words over all
// files and a sink with so much room; the fetch and the put with these numbers fail, counted from 0.

use crate::cases::Part;
use crate::taxonomies::around_space;
use std::alloc::{AllocError, Global};
use xc_io::{MemoryShelf, MemorySink};
use xc_top::run;

// The room of a sink where the words of a run have none.
const ROOM: u64 = 1000;

// The number of no call.
const NONE: u64 = 99;

/// The words of each run, what is written, and the number that the run ends with.
pub fn show(alloc: Global, parts: &[Part]) -> Result<String, AllocError> {
    let mut out = String::new(alloc);
    for part in parts {
        if let Some(words) = part.words.as_str().strip_prefix("run ") {
            show_run(alloc, &mut out, parts, words)?;
        }
    }
    Ok(out)
}

fn show_run(
    alloc: Global,
    out: &mut String,
    parts: &[Part],
    words: &str,
) -> Result<(), AllocError> {
    out.push_str("run ")?;
    out.push_str(words)?;
    out.push('\n')?;
    let (fetch, words) = around_space(words);
    let (put, words) = around_space(words);
    let (room, words) = around_space(words);
    let mut shelf = shelf_of(alloc, parts, number(fetch, NONE))?;
    let Ok(mut sink) = sink_of(alloc, number(room, ROOM), number(put, NONE)) else {
        return out.push_str("  no memory\n");
    };
    let words = words_of(alloc, words)?;
    let status = run(alloc, words.as_slice(), &mut shelf, &mut sink);
    push_lines(out, sink.bytes())?;
    out.push_str(format!(in alloc; "  ends with {}\n", status.number())?.as_str())
}

fn number(word: &str, other: u64) -> u64 {
    match word.parse::<u64>() {
        Ok(number) => number,
        Err(_) => other,
    }
}

fn shelf_of(alloc: Global, parts: &[Part], failing: u64) -> Result<MemoryShelf, AllocError> {
    let files = files_of(alloc, parts)?;
    let mut numbers = Vec::new(alloc);
    numbers.push(failing)?;
    Ok(MemoryShelf::new(alloc, files, numbers))
}

fn sink_of(alloc: Global, room: u64, failing: u64) -> Result<MemorySink, AllocError> {
    let mut numbers = Vec::new(alloc);
    numbers.push(failing)?;
    match MemorySink::new(alloc, room as usize, numbers) {
        Ok(sink) => Ok(sink),
        Err(_) => Err(AllocError),
    }
}

// The files of the cases.
fn files_of(alloc: Global, parts: &[Part]) -> Result<Vec<(String, Vec<u8>)>, AllocError> {
    let mut files = Vec::new(alloc);
    for part in parts {
        if let Some(name) = part.words.as_str().strip_prefix("file ") {
            files.push(file_of(alloc, name, part.text.as_str())?)?;
        }
    }
    Ok(files)
}

fn file_of(alloc: Global, name: &str, text: &str) -> Result<(String, Vec<u8>), AllocError> {
    Ok((
        String::from_str(alloc, name)?,
        text.as_bytes().to_vec(alloc)?,
    ))
}

fn words_of(alloc: Global, line: &str) -> Result<Vec<String>, AllocError> {
    let mut words = Vec::new(alloc);
    for word in line.split(' ') {
        words.push(String::from_str(alloc, word)?)?;
    }
    Ok(words)
}

// Each line of what is written; the last may lack its end.
fn push_lines(out: &mut String, bytes: &[u8]) -> Result<(), AllocError> {
    let Ok(text) = std::str::from_utf8(bytes) else {
        return out.push_str("  no text\n");
    };
    for line in text.lines() {
        out.push_str("  ")?;
        out.push_str(line)?;
        out.push('\n')?;
    }
    Ok(())
}
