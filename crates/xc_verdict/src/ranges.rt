// The ranges of the points that a binding names.
ghost use Rattle.std.specs.Prelude.{◌≡◌, ◌<◌, ◌↔◌, ℕ, length, map, All, IsTrue, IfSome, IfNone};
ghost use Rattle.xc_interval.specs.declared.range.Range.TheVariants as range;
ghost use Rattle.xc_bind.specs.Placed.{IsInside};
ghost use Rattle.xc_verdict.specs.Ranges.{named_points, point_of, range_at};
ghost use Rattle.xc_verdict.specs.Steps.Sums.{IsMetRange, IsKeptRange, IsSomeInterval, SomeIsWide, SomeIsEmpty, AllAreMet, IsFound};

use xc_bind::{Binding, Term, Verdict};
use xc_frac::Frac;
use xc_interval::{Interval, Range};
use xc_points::Point;

// The range of a point.
pub fn range_at(points: &[Point], point: u32) -> Range
    requires { point < length points.now }
    ensures { result ≡ range_at points.now point }
{
    points[point as usize].range
}

// The interval of a point whose range has one.
pub fn interval_at(points: &[Point], point: u32) -> Interval<Frac>
    requires inside { point < length points.now }
    requires met { IsMetRange (range_at points.now point) }
    ensures is { range_at points.now point ≡ range.Meets result }
    ensures some { IsSomeInterval result }
{
    match range_at(points, point) {
        Range::Meets(interval) => interval,
        Range::Empty => unreachable!(),
        Range::Wide => unreachable!(),
    }
}

// Why the points cannot be judged: one is wide, or else one is empty.
pub fn hindrance(binding: &Binding, points: &[Point]) -> Option<Verdict>
    requires total { binding.now.total < length points.now }
    requires terms { All (IsInside points.now) binding.now.terms }
    requires kept { (k : ℕ) → k < length points.now → IsKeptRange (range_at points.now k) }
    ensures some { IfSome result (IsFound points.now binding.now) }
    ensures none { IfNone result (AllAreMet points.now (named_points binding.now)) }
{
    let terms = binding.terms.as_slice();
    let total = range_at(points, binding.total);
    if total.is_wide() || some_is_wide(terms, points) {
        return Some(Verdict::TooWide);
    }
    if total.is_empty() || some_is_empty(terms, points) {
        return Some(Verdict::Unjudged);
    }
    None
}

// Whether a term's point is wide.
fn some_is_wide(terms: &[Term], points: &[Point]) -> bool
    requires { All (IsInside points.now) terms.now }
    ensures { IsTrue result ↔ SomeIsWide points.now (map point_of terms.now) }
{
    for term in terms {
        if range_at(points, term.point).is_wide() {
            return true;
        }
    }
    false
}

// Whether a term's point is empty.
fn some_is_empty(terms: &[Term], points: &[Point]) -> bool
    requires { All (IsInside points.now) terms.now }
    ensures { IsTrue result ↔ SomeIsEmpty points.now (map point_of terms.now) }
{
    for term in terms {
        if range_at(points, term.point).is_empty() {
            return true;
        }
    }
    false
}
