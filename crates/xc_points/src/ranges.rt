// What all facts of a point allow (Calculations 1.1: the values that lie in the intervals of all facts of a data point).
ghost use Rattle.std.specs.Prelude.{◌≡◌, ◌∷◌, ◌<◌, All, Some, length, slice_get};
ghost use Rattle.xc_interval.specs.Ranges.{IsRangeOf};
ghost use Rattle.xc_points.specs.Kept.{ends_of};

use xc_frac::Frac;
use xc_interval::{Interval, Range};

/// The range of the point that has these facts, of which this is the first.
pub fn range_of(first: u32, others: &[u32], ends: &[Option<Interval<Frac>>]) -> Range
    requires first { first < length ends.now }
    requires others { All (λ fact. fact < length ends.now) others.now }
    ensures { IsRangeOf (ends_of ends.now (first ∷ others.now)) result }
{
    let mut range = Range::of(interval_at(ends, first));
    for fact in others {
        range = range.narrowed(interval_at(ends, *fact));
    }
    range
}

// The interval of this fact; None where it is wide.
fn interval_at(ends: &[Option<Interval<Frac>>], fact: u32) -> Option<Interval<Frac>>
    requires { fact < length ends.now }
    ensures { slice_get ends.now fact ≡ Some result }
{
    ends[fact as usize]
}
