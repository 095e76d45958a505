// Walks along the corners of problems.
//
// `= problem NAME` begins a problem. Each line of its text is a range, as `[ 0 1/2 )`, or a row of
// ranges and weights, as `row 0 1 2 -1/2`.
ghost use Rattle.std.specs.Prelude.{◌≡◌, ◌<◌, true, All, length};
ghost use Rattle.xc_corners.specs.Problems.{IsProblem};
ghost use Rattle.xc_interval.specs.Intervals.{HasNoNumber, numbers_of};
ghost use Rattle.xc_model.specs.Ratio.{Ratio};

use crate::cases::Part;
use std::alloc::{AllocError, Global};
use xc_corners::{Corner, Problem};
use xc_frac::{Frac, Op, Wide};
use xc_interval::{End, Interval};
use xc_lists::Items;
use xc_pivot::types::Walk;
use xc_pivot::walk;

/// Each problem, and behind it the corner where its walk ends: the basic variables, and behind `|`
/// those on their high side; and the operation that passes there.
pub fn show(alloc: Global, parts: &[Part]) -> Result<String, AllocError> {
    let mut out = String::new(alloc);
    for part in parts {
        show_part(alloc, &mut out, part)?;
    }
    Ok(out)
}

fn show_part(alloc: Global, out: &mut String, part: &Part) -> Result<(), AllocError> {
    out.push_str(part.words.as_str())?;
    let problem = problem_of(alloc, part.text.as_str())?;
    if problem.ranges.as_slice().len() > 1000 || problem.rows.as_slice().len() > 1000 {
        return out.push_str(" is too long\n");
    }
    if !is_problem(&problem) {
        return out.push_str(" is no problem\n");
    }
    match walk(alloc, &problem) {
        Ok(Walk::Last(corner)) => {
            show_corner(alloc, out, &corner)?;
            out.push('\n')
        }
        Ok(Walk::TooWide(corner, wide)) => {
            show_corner(alloc, out, &corner)?;
            show_wide(alloc, out, wide)
        }
        Err(_) => out.push_str(" no memory\n"),
    }
}

fn show_corner(alloc: Global, out: &mut String, corner: &Corner) -> Result<(), AllocError> {
    show_numbers(alloc, out, corner.basic())?;
    out.push_str(" |")?;
    show_numbers(alloc, out, corner.high())
}

fn show_numbers(alloc: Global, out: &mut String, numbers: &[u32]) -> Result<(), AllocError> {
    for number in numbers {
        out.push_str(format!(in alloc; " {number}")?.as_str())?;
    }
    Ok(())
}

/// An operation, with its operands.
pub fn show_wide(alloc: Global, out: &mut String, wide: Wide) -> Result<(), AllocError> {
    out.push_str(sign_of(wide.op))?;
    show_frac(alloc, out, wide.left)?;
    show_frac(alloc, out, wide.right)?;
    out.push('\n')
}

/// A fraction behind a space.
pub fn show_frac(alloc: Global, out: &mut String, frac: Frac) -> Result<(), AllocError> {
    out.push_str(format!(in alloc; " {}/{}", frac.num(), frac.den())?.as_str())
}

fn sign_of(op: Op) -> &'static str {
    match op {
        Op::Add => " +",
        Op::Sub => " -",
        Op::Mul => " *",
        Op::Div => " /",
    }
}

// The problem of a text.
fn problem_of(alloc: Global, text: &str) -> Result<Problem, AllocError> {
    let ranges = ranges_of(alloc, text)?;
    let rows = rows_of(alloc, text)?;
    Ok(Problem { ranges, rows })
}

/// The ranges of a text.
pub fn ranges_of(alloc: Global, text: &str) -> Result<Items<Interval<Frac>>, AllocError> {
    let mut ranges = Vec::new(alloc);
    for line in text.lines() {
        if line.strip_prefix("row ").is_none() {
            let mut words = line.split(' ');
            let opens = words.next() == Some("(");
            let low: End<Frac> = end_of(number_of(words.next().unwrap_or("")), opens);
            let value = number_of(words.next().unwrap_or(""));
            let high: End<Frac> = end_of(value, words.next() == Some(")"));
            ranges.push(Interval { low, high })?;
        }
    }
    Ok(Items::of(ranges))
}

fn rows_of(alloc: Global, text: &str) -> Result<Items<Items<(u32, Frac)>>, AllocError> {
    let mut rows = Vec::new(alloc);
    for line in text.lines() {
        if let Some(words) = line.strip_prefix("row ") {
            rows.push(row_of(alloc, words)?)?;
        }
    }
    Ok(Items::of(rows))
}

fn end_of(value: Frac, opens: bool) -> End<Frac> {
    if opens {
        End::Open(value)
    } else {
        End::Closed(value)
    }
}

fn row_of(alloc: Global, line: &str) -> Result<Items<(u32, Frac)>, AllocError> {
    let mut row = Vec::new(alloc);
    let mut range = None;
    for word in line.split(' ') {
        range = match range {
            None => Some(word.parse::<u32>().unwrap_or(0)),
            Some(range) => {
                row.push((range, number_of(word)))?;
                None
            }
        };
    }
    Ok(Items::of(row))
}

/// A number, as `1` or `-1/2`; 0 where the word has none.
pub fn number_of(word: &str) -> Frac {
    let mut words = word.split('/');
    let num = words.next().unwrap_or("").parse::<i64>().unwrap_or(0);
    let den = words.next().unwrap_or("1").parse::<i64>().unwrap_or(1);
    match Frac::of(num as i128, den as i128) {
        Some(frac) => frac,
        None => xc_frac::ratio(0, 1),
    }
}

fn is_problem(problem: &Problem) -> bool
    ensures { result ≡ true → IsProblem problem.now }
{
    have_values(problem.ranges.as_slice())
        && name_ranges(problem.rows.as_slice(), problem.ranges.as_slice().len())
}

fn have_values(ranges: &[Interval<Frac>]) -> bool
    ensures { result ≡ true → All (λ range. ¬ HasNoNumber (numbers_of range)) ranges.now }
{
    for place in 0..ranges.len() {
        if ranges[place].is_empty() {
            return false;
        }
    }
    true
}

fn name_ranges(rows: &[Items<(u32, Frac)>], count: usize) -> bool
    ensures { result ≡ true → All (λ row. All (λ entry. entry.0 < count) row) rows.now }
{
    for place in 0..rows.len() {
        if !names_ranges(rows[place].as_slice(), count) {
            return false;
        }
    }
    true
}

fn names_ranges(row: &[(u32, Frac)], count: usize) -> bool
    ensures { result ≡ true → All (λ entry. entry.0 < count) row.now }
{
    for place in 0..row.len() {
        if row[place].0 as usize >= count {
            return false;
        }
    }
    true
}
