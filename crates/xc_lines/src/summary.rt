// The summary of a sample, which stands in place of its findings and its joint part.
ghost use Rattle.std.specs.Prelude.{◌≡◌, ◌++◌, IfOk, OnOk, decimal, length, string_bytes};
ghost use Rattle.std.specs.List.{count_by};
ghost use Rattle.xc_joint.specs.Kinds.{kind_of};
ghost use Rattle.xc_lines.specs.Findings.{counts_line};
ghost use Rattle.xc_lines.specs.Summary.{is_consistent, is_inconsistent, is_too_wide, is_unjudged, judged_part, kind_line, root_line, sample_line, summary, unsettled_part, verdicts_line};

use crate::found::push_counts;
use crate::texts::push_number;
use std::alloc::{AllocError, Global};
use xc_bind::{Binding, Verdict};
use xc_joint::Joint;
use xc_lists::Memory;
use xc_points::types::Points;
use xc_system::Certificate;

/// The summary of a sample of `count` nodes: its bindings and points, its verdicts counted, the value that is reported
/// of node 0, and whether the joint question is settled and how. The only error is want of memory.
pub fn summary_lines(
    alloc: Global,
    count: u32,
    points: &Points,
    bindings: &[Binding],
    verdicts: &[Verdict],
    root: u64,
    joint: &Joint,
) -> Result<Vec<u8>, Memory>
    ensures lines { IfOk result (λ out. out.items ≡ summary count (length bindings.now) (length points.now.points) verdicts.now root (kind_of joint.now)) }
{
    let mut out = String::new(alloc);
    push_sample(&mut out, count)?;
    push_counts(&mut out, bindings.len(), points.as_slice().len())?;
    push_verdicts(&mut out, verdicts)?;
    push_root(&mut out, root)?;
    out.push_str(kind_line(joint))?;
    Ok(out.into_bytes())
}

fn push_sample(out: &mut String, count: u32) -> Result<(), AllocError>
    ensures { OnOk result (string_bytes out.new ≡ string_bytes out.old ++ sample_line count) }
{
    out.push_str("sample ")?;
    push_number(out, count as usize)?;
    out.push_str("\n")
}

fn push_root(out: &mut String, root: u64) -> Result<(), AllocError>
    ensures { OnOk result (string_bytes out.new ≡ string_bytes out.old ++ root_line root) }
{
    out.push_str("root ")?;
    write!(out, "{root}")?;
    out.push_str("\n")
}

fn push_verdicts(out: &mut String, verdicts: &[Verdict]) -> Result<(), AllocError>
    ensures { OnOk result (string_bytes out.new ≡ string_bytes out.old ++ verdicts_line verdicts.now) }
{
    push_judged(out, verdicts)?;
    push_unsettled(out, verdicts)?;
    out.push_str("\n")?;
    Ok(())
}

// How many verdicts agree, and how many disagree.
fn push_judged(out: &mut String, verdicts: &[Verdict]) -> Result<(), AllocError>
    ensures { OnOk result (string_bytes out.new ≡ string_bytes out.old ++ judged_part verdicts.now) }
{
    let consistent = consistent_count(verdicts);
    push_pair(
        out,
        "consistent ",
        consistent,
        " inconsistent ",
        inconsistent_count(verdicts),
    )
}

// How many verdicts are neither.
fn push_unsettled(out: &mut String, verdicts: &[Verdict]) -> Result<(), AllocError>
    ensures { OnOk result (string_bytes out.new ≡ string_bytes out.old ++ unsettled_part verdicts.now) }
{
    let unjudged = unjudged_count(verdicts);
    push_pair(
        out,
        " unjudged ",
        unjudged,
        " too-wide ",
        too_wide_count(verdicts),
    )
}

// Two numbers, each behind a text.
fn push_pair(
    out: &mut String,
    before: &str,
    first: usize,
    between: &str,
    second: usize,
) -> Result<(), AllocError>
    ensures { OnOk result (string_bytes out.new ≡ string_bytes out.old ++ (before.now ++ decimal first ++ between.now ++ decimal second)) }
{
    out.push_str(before)?;
    push_number(out, first)?;
    out.push_str(between)?;
    push_number(out, second)
}

fn consistent_count(verdicts: &[Verdict]) -> usize
    ensures { result ≡ count_by is_consistent verdicts.now }
{
    verdicts
        .iter()
        .filter(|verdict| is_consistent(**verdict))
        .count()
}

fn is_consistent(verdict: Verdict) -> bool
    ensures { result ≡ is_consistent verdict }
{
    match verdict {
        Verdict::Consistent => true,
        Verdict::Inconsistent | Verdict::Unjudged | Verdict::TooWide => false,
    }
}

fn inconsistent_count(verdicts: &[Verdict]) -> usize
    ensures { result ≡ count_by is_inconsistent verdicts.now }
{
    verdicts
        .iter()
        .filter(|verdict| is_inconsistent(**verdict))
        .count()
}

/// Whether a total disagrees with its contributors.
pub fn is_inconsistent(verdict: Verdict) -> bool
    ensures { result ≡ is_inconsistent verdict }
{
    match verdict {
        Verdict::Inconsistent => true,
        Verdict::Consistent | Verdict::Unjudged | Verdict::TooWide => false,
    }
}

fn unjudged_count(verdicts: &[Verdict]) -> usize
    ensures { result ≡ count_by is_unjudged verdicts.now }
{
    verdicts
        .iter()
        .filter(|verdict| is_unjudged(**verdict))
        .count()
}

fn is_unjudged(verdict: Verdict) -> bool
    ensures { result ≡ is_unjudged verdict }
{
    match verdict {
        Verdict::Unjudged => true,
        Verdict::Consistent | Verdict::Inconsistent | Verdict::TooWide => false,
    }
}

fn too_wide_count(verdicts: &[Verdict]) -> usize
    ensures { result ≡ count_by is_too_wide verdicts.now }
{
    verdicts
        .iter()
        .filter(|verdict| is_too_wide(**verdict))
        .count()
}

/// Whether a binding passes the widths in which verdicts are computed.
pub fn is_too_wide(verdict: Verdict) -> bool
    ensures { result ≡ is_too_wide verdict }
{
    match verdict {
        Verdict::TooWide => true,
        Verdict::Consistent | Verdict::Inconsistent | Verdict::Unjudged => false,
    }
}

fn kind_line(joint: &Joint) -> &'static str
    ensures { result.now ≡ kind_line (kind_of joint.now) }
{
    match joint {
        Joint::Settled(Certificate::Feasible(_)) => "joint feasible\n",
        Joint::Settled(Certificate::Infeasible(_)) => "joint infeasible\n",
        Joint::TooWide(_) => "joint too-wide\n",
    }
}
