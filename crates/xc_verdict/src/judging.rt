ghost use Rattle.std.specs.Prelude.{◌<◌, ℕ, List, length, All};
ghost use Rattle.xc_interval.specs.Intervals.{TellsNone};
ghost use Rattle.xc_interval.specs.declared.mode.Mode.{Mode};
ghost use Rattle.xc_points.specs.Gathered.{ArePoints};
ghost use Rattle.xc_report.specs.declared.reports.Fact.{Fact};
ghost use Rattle.xc_bind.specs.Placed.{IsInside};
ghost use Rattle.xc_verdict.specs.Ranges.{named_points, range_at};
ghost use Rattle.xc_verdict.specs.Steps.Sums.{IsKeptRange, AllAreMet, IsShared, IsFound};
ghost use Rattle.xc_verdict.specs.Verdicts.{IsVerdict};
ghost use Rattle.xc_verdict.specs.Widths.{IsNarrowBinding};

use crate::ranges::{hindrance, interval_at};
use crate::sums::sum_of;
use crate::width::is_narrow;
use xc_bind::{Binding, Verdict};
use xc_interval::laws;
use xc_points::{Point, Points};

/// The verdict of a binding that names points of these: the first of these lines that holds
/// (Calculations 1.1, the consistency of a calculation; the widths are this project's own).
///
/// 1. `TooWide`: a fact of the total's point or of a term's point is wide.
/// 2. `Unjudged`: no number is admitted by all facts of one of these points.
/// 3. `TooWide`: the binding is not narrow. With D the least common denominator of all ends of the
///    points' ranges, Q the greatest number of places of a weight, and g the greater magnitude of the
///    ends of a range, D * 10^Q * (1 + sum of |weight| * g) exceeds 2^126, where the sum goes over the
///    total with weight 1 and each term.
/// 4. `Consistent`: values exist, one that all facts of the total's point admit and one for each term,
///    of its own, that all facts of its point admit, such that the total's is the sum of the terms',
///    each times its weight.
/// 5. `Inconsistent`.
///
/// It takes no memory. For n terms it makes at most n multiplications and n additions of intervals, and
/// no multiplication for a weight of 1 or -1.
pub fn verdict(binding: &Binding, points: &Points) -> Verdict
    requires total { binding.now.total < length points.now.points }
    requires terms { All (IsInside points.now.points) binding.now.terms }
    ensures verdict { (mode : Mode) (facts : List Fact) → ArePoints mode facts points.now
        → IsVerdict mode facts points.now.points binding.now result }
{
    laws::ends_tell();
    verdict_by_ranges(binding, points.as_slice())
}

// The verdict, by the ranges of the points.
fn verdict_by_ranges(binding: &Binding, points: &[Point]) -> Verdict
    requires total { binding.now.total < length points.now }
    requires terms { All (IsInside points.now) binding.now.terms }
    requires kept { (k : ℕ) → k < length points.now → IsKeptRange (range_at points.now k) }
    ensures { IsFound points.now binding.now result }
{
    if let Some(verdict) = hindrance(binding, points) {
        return verdict;
    }
    if !is_narrow(binding, points) {
        return Verdict::TooWide;
    }
    if is_apart(binding, points) {
        Verdict::Inconsistent
    } else {
        Verdict::Consistent
    }
}

// Whether no number of the total's range is a sum of the terms.
fn is_apart(binding: &Binding, points: &[Point]) -> bool
    requires total { binding.now.total < length points.now }
    requires terms { All (IsInside points.now) binding.now.terms }
    requires met { AllAreMet points.now (named_points binding.now) }
    requires narrow { IsNarrowBinding points.now binding.now }
    ensures { TellsNone result (IsShared points.now binding.now) }
{
    let total = interval_at(points, binding.total);
    total.meet(&sum_of(binding, points)).is_empty()
}
