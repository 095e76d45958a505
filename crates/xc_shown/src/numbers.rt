// Values with an infinitely small part, and the numbers made of them.
//
// `= values NAME` begins some. Each line of its text is a range and a value in it, its part without
// the infinitely small and how many times it has that, as `( 0 1/2 ] 0 1`.
use crate::cases::Part;
use crate::walks::{number_of, ranges_of, show_frac, show_wide};
use std::alloc::{AllocError, Global};
use xc_frac::{Delta, Frac};
use xc_joint::{Halt, numbers};

/// Each case, and behind it the number made of each of its values, or the operation that passes.
pub fn show(alloc: Global, parts: &[Part]) -> Result<String, AllocError> {
    let mut out = String::new(alloc);
    for part in parts {
        show_part(alloc, &mut out, part)?;
    }
    Ok(out)
}

fn show_part(alloc: Global, out: &mut String, part: &Part) -> Result<(), AllocError> {
    out.push_str(part.words.as_str())?;
    out.push('\n')?;
    let ranges = ranges_of(alloc, part.text.as_str())?;
    let values = values_of(alloc, part.text.as_str())?;
    if values.as_slice().len() != ranges.as_slice().len() {
        return out.push_str("a line is no range\n");
    }
    match numbers(alloc, ranges.as_slice(), values.as_slice()) {
        Ok(found) => show_numbers(alloc, out, found.as_slice()),
        Err(Halt::Wide(wide)) => show_wide(alloc, out, wide),
        Err(Halt::Memory) => out.push_str("no memory\n"),
    }
}

fn show_numbers(alloc: Global, out: &mut String, numbers: &[Frac]) -> Result<(), AllocError> {
    for number in numbers {
        show_frac(alloc, out, *number)?;
    }
    out.push('\n')
}

fn values_of(alloc: Global, text: &str) -> Result<Vec<Delta<Frac>>, AllocError> {
    let mut values = Vec::new(alloc);
    for line in text.lines() {
        values.push(value_of(line))?;
    }
    Ok(values)
}

// The value behind the range of a line.
fn value_of(line: &str) -> Delta<Frac> {
    let mut words = line.split(' ').skip(4);
    let real = number_of(words.next().unwrap_or(""));
    let tiny = number_of(words.next().unwrap_or(""));
    Delta { real, tiny }
}
