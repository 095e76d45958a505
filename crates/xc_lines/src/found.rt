// What is found of a report: a line with the counts, one for each binding, one for each empty point.
ghost use Rattle.std.specs.Prelude.{◌≡◌, ◌≢◌, ◌<◌, ◌++◌, [], IfOk, OnOk, All, length, string_bytes, if◌then◌else◌};
ghost use Rattle.std.specs.List.{zip, enumerate_from};
ghost use Rattle.xc_calc.specs.Networks.{role_of};
ghost use Rattle.xc_interval.specs.Ranges.{is_empty_range};
ghost use Rattle.xc_lines.specs.Findings.{CarryFacts, NameTotals, NameNetworks, HaveFacts, first_id, first_id_at, counts_line, mode_code, verdict_code, verdict_word, binding_line, binding_lines, empty_point_line, empty_point_lines, findings};

use crate::texts::{push_number, push_text};
use std::alloc::{AllocError, Global};
use xc_bind::{Binding, Verdict};
use xc_calc::Network;
use xc_interval::{Mode, Range};
use xc_lists::Memory;
use xc_points::Point;
use xc_points::types::Points;
use xc_report::{Fact, Report};

/// The lines of what is found: the counts; for each binding in order its verdict, with the role of its network and
/// the id of its total's first fact, and with the code of Calculations 1.1 where it disagrees; and then each point
/// in order that no value satisfies, with the id of its first fact. The only error is want of memory.
pub fn findings(
    alloc: Global,
    report: &Report,
    points: &Points,
    networks: &[Network],
    bindings: &[Binding],
    verdicts: &[Verdict],
    mode: Mode,
) -> Result<Vec<u8>, Memory>
    requires verdicts { length verdicts.now ≡ length bindings.now }
    requires facts { CarryFacts report.now.facts points.now.points }
    requires totals { NameTotals points.now.points bindings.now }
    requires networks { NameNetworks networks.now bindings.now }
    ensures lines { IfOk result (λ out. out.items ≡ findings mode report.now.facts networks.now points.now.points bindings.now verdicts.now) }
{
    let facts = report.facts.as_slice();
    let points = points.as_slice();
    let mut out = String::new(alloc);
    push_counts(&mut out, bindings.len(), points.len())?;
    push_bindings(&mut out, facts, points, networks, bindings, verdicts, mode)?;
    push_empty_points(&mut out, facts, points)?;
    Ok(out.into_bytes())
}

/// How many bindings and points there are.
pub(crate) fn push_counts(
    out: &mut String,
    bindings: usize,
    points: usize,
) -> Result<(), AllocError>
    ensures { OnOk result (string_bytes out.new ≡ string_bytes out.old ++ counts_line bindings points) }
{
    out.push_str("bindings ")?;
    push_number(out, bindings)?;
    out.push_str(" points ")?;
    push_number(out, points)?;
    out.push_str("\n")
}

// A line for each binding, in order.
fn push_bindings(
    out: &mut String,
    facts: &[Fact],
    points: &[Point],
    networks: &[Network],
    bindings: &[Binding],
    verdicts: &[Verdict],
    mode: Mode,
) -> Result<(), AllocError>
    requires verdicts { length verdicts.now ≡ length bindings.now }
    requires facts { CarryFacts facts.now points.now }
    requires some { HaveFacts points.now }
    requires totals { NameTotals points.now bindings.now }
    requires networks { NameNetworks networks.now bindings.now }
    ensures { OnOk result (string_bytes out.new ≡ string_bytes out.old ++ binding_lines mode facts.now networks.now points.now (enumerate_from 0 (zip bindings.now verdicts.now))) }
{
    for (number, binding) in bindings.iter().enumerate() {
        let role = role_of(networks, binding.network);
        let id = first_id_at(facts, points, binding.total);
        push_binding(out, number, role, id, verdicts[number], mode)?;
    }
    Ok(())
}

// The role of a network, by its number.
fn role_of(networks: &[Network], number: u32) -> &str
    requires { number < length networks.now }
    ensures { result.now ≡ role_of networks.now number }
{
    networks[number as usize].role.as_str()
}

// The id of the first fact of a point, by its number.
fn first_id_at<'a>(facts: &'a [Fact], points: &[Point], number: u32) -> &'a str
    requires facts { CarryFacts facts.now points.now }
    requires some { HaveFacts points.now }
    requires point { number < length points.now }
    ensures { result.now ≡ first_id_at facts.now points.now number }
{
    first_id(facts, &points[number as usize])
}

// The id of the first fact of a point.
fn first_id<'a>(facts: &'a [Fact], point: &Point) -> &'a str
    requires facts { All (λ f. f < length facts.now) point.now.facts }
    requires some { point.now.facts ≢ [] }
    ensures { result.now ≡ first_id facts.now point.now }
{
    let first = point.facts.as_slice()[0];
    facts[first as usize].id.as_str()
}

// The verdict of a binding.
fn push_binding(
    out: &mut String,
    number: usize,
    role: &str,
    id: &str,
    verdict: Verdict,
    mode: Mode,
) -> Result<(), AllocError>
    ensures { OnOk result (string_bytes out.new ≡ string_bytes out.old ++ binding_line mode number role.now id.now verdict) }
{
    out.push_str("binding ")?;
    push_number(out, number)?;
    out.push_str(verdict_word(verdict))?;
    push_text(out, role)?;
    out.push_str(" ")?;
    push_text(out, id)?;
    out.push_str(verdict_code(verdict, mode))?;
    out.push_str("\n")
}

fn verdict_word(verdict: Verdict) -> &'static str
    ensures { result.now ≡ verdict_word verdict }
{
    match verdict {
        Verdict::Consistent => " consistent ",
        Verdict::Inconsistent => " inconsistent ",
        Verdict::Unjudged => " unjudged ",
        Verdict::TooWide => " too-wide ",
    }
}

fn verdict_code(verdict: Verdict, mode: Mode) -> &'static str
    ensures { result.now ≡ verdict_code mode verdict }
{
    match verdict {
        Verdict::Inconsistent => mode_code(mode),
        Verdict::Consistent | Verdict::Unjudged | Verdict::TooWide => "",
    }
}

fn mode_code(mode: Mode) -> &'static str
    ensures { result.now ≡ mode_code mode }
{
    match mode {
        Mode::Rounding => " calc11e:inconsistentCalculationUsingRounding",
        Mode::Truncation => " calc11e:inconsistentCalculationUsingTruncation",
    }
}

// A line for each empty point, in order.
fn push_empty_points(out: &mut String, facts: &[Fact], points: &[Point]) -> Result<(), AllocError>
    requires facts { CarryFacts facts.now points.now }
    requires some { HaveFacts points.now }
    ensures { OnOk result (string_bytes out.new ≡ string_bytes out.old ++ empty_point_lines facts.now (enumerate_from 0 points.now)) }
{
    for (number, point) in points.iter().enumerate() {
        push_if_empty(out, number, first_id(facts, point), &point.range)?;
    }
    Ok(())
}

// The line of a point, where it is empty.
fn push_if_empty(out: &mut String, number: usize, id: &str, range: &Range) -> Result<(), AllocError>
    ensures { OnOk result (string_bytes out.new ≡ string_bytes out.old ++ (if is_empty_range range.now then empty_point_line number id.now else [])) }
{
    if range.is_empty() {
        push_empty_point(out, number, id)
    } else {
        Ok(())
    }
}

fn push_empty_point(out: &mut String, number: usize, fact: &str) -> Result<(), AllocError>
    ensures { OnOk result (string_bytes out.new ≡ string_bytes out.old ++ empty_point_line number fact.now) }
{
    out.push_str("point ")?;
    push_number(out, number)?;
    out.push_str(" empty ")?;
    push_text(out, fact)?;
    out.push_str(" xc:emptyDataPoint\n")?;
    Ok(())
}
