// What all facts of a point allow, and which of them are the tightest.
ghost use Rattle.std.specs.Prelude.{◌≡◌, ◌⊎◌, ◌∷◌, ◌<◌, ◌↔◌, IsTrue, IsSome, All, find, length, map};
ghost use Rattle.xc_interval.specs.Ranges.{IsRangeOf};
ghost use Rattle.xc_system.specs.Spots.{AreTightest, HasTighter, IsFirstTightest, is_wide_fact};
ghost use Rattle.xc_system.specs.Systems.{range_at};

use crate::types::{Bound, Side, Spot};
use xc_frac::Frac;
use xc_interval::laws::tighter_ends;
use xc_interval::{Interval, Range};

/// The spot of the point that has these facts, of which this is the first.
pub fn spot_of(first: u32, others: &[u32], bounds: &[Bound]) -> Spot
    requires first { first < length bounds.now }
    requires others { All (λ fact. fact < length bounds.now) others.now }
    ensures range { IsRangeOf (map (range_at bounds.now) (first ∷ others.now)) result.range }
    ensures tightest { AreTightest bounds.now (first ∷ others.now) result.range result.low result.high }
{
    let range = range_of(first, others, bounds);
    match first_wide(first, others, bounds) {
        Some(wide) => Spot {
            range,
            low: wide,
            high: wide,
        },
        None => Spot {
            range,
            low: first_tightest(Side::Low, first, others, bounds),
            high: first_tightest(Side::High, first, others, bounds),
        },
    }
}

// The range that their intervals give.
fn range_of(first: u32, others: &[u32], bounds: &[Bound]) -> Range
    requires first { first < length bounds.now }
    requires others { All (λ fact. fact < length bounds.now) others.now }
    ensures { IsRangeOf (map (range_at bounds.now) (first ∷ others.now)) result }
{
    let mut range = Range::of(interval_of(first, bounds));
    for fact in others {
        range = range.narrowed(interval_of(*fact, bounds));
    }
    range
}

/// The interval of a fact; None where it is wide.
pub fn interval_of(fact: u32, bounds: &[Bound]) -> Option<Interval<Frac>>
    requires { fact < length bounds.now }
    ensures { result ≡ range_at bounds.now fact }
{
    bounds[fact as usize].range
}

// The first that is wide.
fn first_wide(first: u32, others: &[u32], bounds: &[Bound]) -> Option<u32>
    requires first { first < length bounds.now }
    requires others { All (λ fact. fact < length bounds.now) others.now }
    ensures { result ≡ find (is_wide_fact bounds.now) (first ∷ others.now) }
{
    if interval_of(first, bounds).is_none() {
        return Some(first);
    }
    for fact in others {
        if interval_of(*fact, bounds).is_none() {
            return Some(*fact);
        }
    }
    None
}

// The first whose end on this side is the tightest, where none is wide.
fn first_tightest(side: Side, first: u32, others: &[u32], bounds: &[Bound]) -> u32
    requires first { IsSome (range_at bounds.now first) }
    requires others { All (λ fact. IsSome (range_at bounds.now fact)) others.now }
    ensures { IsFirstTightest (HasTighter side bounds.now) (first ∷ others.now) result }
{
    tighter_ends();
    let mut tightest = first;
    for fact in others {
        tightest = tighter_of(side, tightest, *fact, bounds);
    }
    tightest
}

// The later of two facts where its end on this side is the tighter one, and else the earlier.
fn tighter_of(side: Side, earlier: u32, later: u32, bounds: &[Bound]) -> u32
    requires earlier { IsSome (range_at bounds.now earlier) }
    requires later { IsSome (range_at bounds.now later) }
    ensures { ((result ≡ later) × HasTighter side bounds.now later earlier)
        ⊎ ((result ≡ earlier) × (¬ HasTighter side bounds.now later earlier)) }
{
    if is_tighter(side, later, earlier, bounds) {
        later
    } else {
        earlier
    }
}

// Whether the end of a fact on this side is tighter than that of another.
fn is_tighter(side: Side, fact: u32, other: u32, bounds: &[Bound]) -> bool
    requires fact { IsSome (range_at bounds.now fact) }
    requires other { IsSome (range_at bounds.now other) }
    ensures { IsTrue result ↔ HasTighter side bounds.now fact other }
{
    let interval = known_interval(fact, bounds);
    let others = known_interval(other, bounds);
    match side {
        Side::Low => interval.low.is_tighter_low(others.low),
        Side::High => interval.high.is_tighter_high(others.high),
    }
}

// The interval of a fact that is not wide.
fn known_interval(fact: u32, bounds: &[Bound]) -> Interval<Frac>
    requires { IsSome (range_at bounds.now fact) }
    ensures { range_at bounds.now fact ≡ Some result }
{
    bounds[fact as usize].range.unwrap()
}
