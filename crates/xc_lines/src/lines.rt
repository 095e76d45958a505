// The lines that are written in place of findings, each ended by a line feed.
ghost use Rattle.std.specs.Prelude.{◌≡◌, IfOk, string_bytes};
ghost use Rattle.xc_lines.specs.Lines.{usage_line, read_fault_line, refusal_line, placed_refusal_line};

use crate::texts::push_text;
use std::alloc::{AllocError, Global};

const USAGE: &str =
    "usage: xcalc sum MODE REPORT TOTAL TERM... | check [--old-arcs] MODE REPORT DOC... | verify [--old-arcs] MODE CERTIFICATE REPORT DOC... | sample N\n";

/// The usage line: the words that are accepted.
pub fn usage_line() -> &'static str
    ensures line { result.now ≡ usage_line }
{
    USAGE
}

/// A file that could not be read, by its word. The only error is want of memory.
pub fn read_fault_line(alloc: Global, name: &str) -> Result<String, AllocError>
    ensures line { IfOk result (λ line. string_bytes line ≡ read_fault_line name.now) }
{
    let mut line = String::from_str(alloc, "read-fault ")?;
    push_text(&mut line, name)?;
    line.push_str("\n")?;
    Ok(line)
}

/// A file that is refused, by its word, with the code of the fault. The only error is want of memory.
pub fn refusal_line(alloc: Global, name: &str, code: &str) -> Result<String, AllocError>
    ensures line { IfOk result (λ line. string_bytes line ≡ refusal_line name.now code.now) }
{
    let mut line = String::from_str(alloc, "refused ")?;
    push_text(&mut line, name)?;
    line.push_str(" ")?;
    line.push_str(code)?;
    line.push_str("\n")?;
    Ok(line)
}

/// A file that is refused, by its word, with the code of the fault and its place in the file: a text, or a number in
/// decimal digits. The only error is want of memory.
pub fn placed_refusal_line(
    alloc: Global,
    name: &str,
    code: &str,
    place: &str,
) -> Result<String, AllocError>
    ensures line { IfOk result (λ line. string_bytes line ≡ placed_refusal_line name.now code.now place.now) }
{
    let mut line = String::from_str(alloc, "refused ")?;
    push_text(&mut line, name)?;
    line.push_str(" ")?;
    line.push_str(code)?;
    line.push_str(" ")?;
    push_text(&mut line, place)?;
    line.push_str("\n")?;
    Ok(line)
}
