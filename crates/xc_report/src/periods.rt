// Periods in their normal form.
ghost use Rattle.std.specs.Prelude.{◌≡◌, ◌++◌, codes, IfOk, OnOk, string_bytes};
ghost use Rattle.xc_report.specs.Periods.{is_date, moment, normal_period};

use crate::forms::has_form;
use std::alloc::Global;
use xc_chars::around;
use xc_lists::{Memory, Text};

// How a date is written, with `d` for each digit.
const DATE: &str = "dddd-dd-dd";

/// A period in its normal form: in a text with at most one slash, each date stands for the start of
/// its day, as `2024-01-01T00:00:00`. Any other text stays as it is, and no calendar is asked.
pub fn normal_period(alloc: Global, text: &str) -> Result<Text, Memory>
    ensures { IfOk result (λ period. period ≡ normal_period text.now) }
{
    match around(text, '/') {
        None => one_moment(alloc, text),
        Some((start, end)) => {
            if around(end, '/').is_some() {
                Ok(Text::of(String::from_str(alloc, text)?))
            } else {
                two_moments(alloc, start, end)
            }
        }
    }
}

fn one_moment(alloc: Global, text: &str) -> Result<Text, Memory>
    ensures { IfOk result (λ period. period ≡ moment text.now) }
{
    let mut out = String::from_str(alloc, text)?;
    push_time(&mut out, text)?;
    Ok(Text::of(out))
}

fn two_moments(alloc: Global, start: &str, end: &str) -> Result<Text, Memory>
    ensures { IfOk result (λ period. period ≡ moment start.now ++ codes "/" ++ moment end.now) }
{
    let mut out = one_moment(alloc, start)?.into_string();
    let after = one_moment(alloc, end)?;
    out.push_str("/")?;
    out.push_str(after.as_str())?;
    Ok(Text::of(out))
}

// Adds the time at which a day starts, where the text is a date.
fn push_time(out: &mut String, text: &str) -> Result<(), Memory>
    ensures { OnOk result (string_bytes out.old ≡ text.now → string_bytes out.new ≡ moment text.now) }
{
    if is_date(text) {
        out.push_str("T00:00:00")?;
    }
    Ok(())
}

fn is_date(text: &str) -> bool
    ensures { result ≡ is_date text.now }
{
    has_form(DATE.as_bytes(), text.as_bytes())
}
