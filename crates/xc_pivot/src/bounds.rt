// The bounds of variables, and how values lie to them.
ghost use Rattle.std.specs.Prelude.{◌≡◌, ◌↔◌, ℕ, ℤ, pos, negsuc, if◌then◌else◌, IsTrue};
ghost use Rattle.xc_corners.specs.Choices.{Helps};
ghost use Rattle.xc_corners.specs.Problems.{IsProblem};
ghost use Rattle.xc_interval.specs.Ends.{value_of, is_open};
ghost use Rattle.xc_model.specs.Ratio.{IsOver};
ghost use Rattle.xc_pivot.specs.Bounds.{IsBelowAt};
ghost use Rattle.xc_pivot.specs.Deltas.{IsLowOf, IsHighOf};

use std::cmp::Ordering;
use xc_corners::Problem;
use xc_corners::laws::problems_are_whole;
use xc_frac::{Delta, Exact, Frac, ratio};
use xc_interval::End;

/// The low bound of a variable.
pub fn low_of(problem: &Problem, variable: u32) -> Delta<Frac>
    requires problem { IsProblem problem.now }
    ensures low { IsLowOf problem.now variable result }
{
    problems_are_whole();
    let ranges = problem.ranges.as_slice();
    if (variable as usize) < ranges.len() {
        return low_pair(ranges[variable as usize].low);
    }
    zero()
}

/// The high bound of a variable.
pub fn high_of(problem: &Problem, variable: u32) -> Delta<Frac>
    requires problem { IsProblem problem.now }
    ensures high { IsHighOf problem.now variable result }
{
    problems_are_whole();
    let ranges = problem.ranges.as_slice();
    if (variable as usize) < ranges.len() {
        return high_pair(ranges[variable as usize].high);
    }
    zero()
}

// The bound that a low end gives: an open one is just above its value.
fn low_pair(end: End<Frac>) -> Delta<Frac>
    ensures real { result.real ≡ value_of end }
    ensures tiny { IsOver result.tiny (if is_open end then pos 1 else pos 0) 1 }
{
    match end {
        End::Closed(value) => delta_of(value, ratio(0, 1)),
        End::Open(value) => delta_of(value, ratio(1, 1)),
    }
}

// The bound that a high end gives: an open one is just below its value.
fn high_pair(end: End<Frac>) -> Delta<Frac>
    ensures real { result.real ≡ value_of end }
    ensures tiny { IsOver result.tiny (if is_open end then negsuc 0 else pos 0) 1 }
{
    match end {
        End::Closed(value) => delta_of(value, ratio(0, 1)),
        End::Open(value) => delta_of(value, ratio(-1, 1)),
    }
}

// A value and a tiny part.
fn delta_of(real: Frac, tiny: Frac) -> Delta<Frac>
    ensures real { result.real ≡ real }
    ensures tiny { result.tiny ≡ tiny }
{
    Delta { real, tiny }
}

/// The number 0.
pub fn zero() -> Delta<Frac>
    ensures real { IsOver result.real (pos 0) 1 }
    ensures tiny { IsOver result.tiny (pos 0) 1 }
{
    delta_of(ratio(0, 1), ratio(0, 1))
}

/// Whether a number is less than another.
pub fn is_below(left: &Delta<Frac>, right: &Delta<Frac>) -> bool
    ensures { IsBelowAt result left.now right.now }
{
    match left.compare(*right) {
        Ordering::Less => true,
        _ => false,
    }
}

/// Whether a variable on its low side, or its high one, can move one back that is below its low bound, or above
/// its high one: by the sign of its factor.
pub fn helps(above: bool, is_high: bool, factor: Frac) -> bool
    ensures { (n : ℤ) (d : ℕ) → IsOver factor n d → IsTrue result ↔ Helps above is_high n }
{
    let sign = factor.num();
    let positive = sign > 0;
    let negative = sign < 0;
    if above == is_high { positive } else { negative }
}
