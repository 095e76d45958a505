// The verdicts of all bindings, and how the run ends.
ghost use Rattle.std.specs.Prelude.{◌≡◌, ◌||◌, ℕ, List, IfOk, All, length};
ghost use Rattle.std.specs.List.{list_any};
ghost use Rattle.xc_bind.specs.Placed.{IsPlaced};
ghost use Rattle.xc_interval.specs.declared.mode.Mode.{Mode};
ghost use Rattle.xc_points.specs.Gathered.{ArePoints};
ghost use Rattle.xc_report.specs.declared.reports.Fact.{Fact};
ghost use Rattle.xc_top.specs.Findings.{AreVerdicts, has_finding, is_inconsistent, is_empty_point, is_too_wide};
ghost use Rattle.xc_top.specs.Steps.Joined.{status_by};
ghost use Rattle.xc_top.specs.Steps.Stops.{IsSettled};

use crate::Status;
use std::alloc::Global;
use xc_bind::{Binding, Verdict};
use xc_lines::{is_inconsistent, is_too_wide};
use xc_lists::Memory;
use xc_points::{Point, Points};
use xc_verdict::verdict;

/// One verdict for each binding, in their order.
pub fn verdicts_of(
    alloc: Global,
    bindings: &[Binding],
    points: &Points,
) -> Result<Vec<Verdict>, Memory>
    requires { All (IsPlaced points.now.points) bindings.now }
    ensures verdicts { IfOk result (λ verdicts. (mode : Mode) (facts : List Fact) → ArePoints mode facts points.now
        → AreVerdicts mode facts points.now.points bindings.now verdicts.items) }
    ensures length { IfOk result (λ verdicts. length verdicts.items ≡ length bindings.now) }
{
    let mut verdicts = Vec::new(alloc);
    for binding in bindings {
        verdicts.push(verdict(binding, points))?;
    }
    Ok(verdicts)
}

/// How the run ends: with findings where something disagrees; else too wide where something is; else sound.
pub fn status_by(disagrees: bool, too_wide: bool) -> Status
    ensures status { result ≡ status_by disagrees too_wide }
    ensures settles { IsSettled result }
{
    if disagrees {
        return Status::Findings;
    }
    if too_wide {
        return Status::TooWide;
    }
    Status::Sound
}

/// Whether a total disagrees, or no value satisfies a data point.
pub fn has_finding(points: &[Point], verdicts: &[Verdict]) -> bool
    ensures { result ≡ has_finding points.now verdicts.now }
{
    any_inconsistent(verdicts) || any_empty(points)
}

fn any_inconsistent(verdicts: &[Verdict]) -> bool
    ensures { result ≡ list_any is_inconsistent verdicts.now }
{
    verdicts.iter().any(|verdict| is_inconsistent(*verdict))
}

/// Whether a binding is too wide.
pub fn any_too_wide(verdicts: &[Verdict]) -> bool
    ensures { result ≡ list_any is_too_wide verdicts.now }
{
    verdicts.iter().any(|verdict| is_too_wide(*verdict))
}

fn any_empty(points: &[Point]) -> bool
    ensures { result ≡ list_any is_empty_point points.now }
{
    points.iter().any(|point| point.range.is_empty())
}
