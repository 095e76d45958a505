ghost use Rattle.std.specs.Prelude.{◌≡◌, ◌++◌, ◌∷◌, [], ◌<◌, List, Option, IfSome, IfNone};
ghost use Rattle.xc_model.specs.Ratio.{Ratio};
ghost use Rattle.xc_interval.specs.Ranges.{is_empty_range, is_wide_range, IsRangeOf};
ghost use Rattle.xc_interval.specs.Scales.{AreOnScale, IsMultipleOf, IsNoneBelow, greatest, saturated};
ghost use Rattle.xc_interval.specs.Steps.Between.{IsRangeBetween};
ghost use Rattle.xc_interval.specs.declared.interval.Interval.{Interval};

use crate::interval::Interval;
use xc_frac::Frac;

/// What all facts of a data point allow together.
#[derive(Clone, Copy, Debug, PartialEq, Eq)]
pub enum Range {
    /// The numbers of an interval, which is not empty.
    Meets(Interval<Frac>),
    /// No number: no value is allowed by every fact.
    Empty,
    /// A fact is too wide for its interval to be known.
    Wide,
}

impl Range {
    /// The range that one interval gives; None stands for one that is not known.
    pub fn of(interval: Option<Interval<Frac>>) -> Range
        ensures { IsRangeOf (interval ∷ []) result }
    {
        match interval {
            Some(interval) => between(interval),
            None => Range::Wide,
        }
    }

    /// The range that several intervals and one more give, where this is the range of the several.
    pub fn narrowed(self, next: Option<Interval<Frac>>) -> Range
        ensures { (es : List (Option (Interval Ratio))) → IsRangeOf es self → IsRangeOf (es ++ next ∷ []) result }
    {
        let Some(next) = next else {
            return Range::Wide;
        };
        match self {
            Range::Meets(met) => between(met.meet(&next)),
            Range::Empty => Range::Empty,
            Range::Wide => Range::Wide,
        }
    }

    /// Whether it is known that no number lies in it.
    pub fn is_empty(&self) -> bool
        ensures { result ≡ is_empty_range self.now }
    {
        match *self {
            Range::Empty => true,
            Range::Wide => false,
            Range::Meets(_) => false,
        }
    }

    /// Whether it is not known.
    pub fn is_wide(&self) -> bool
        ensures { result ≡ is_wide_range self.now }
    {
        match *self {
            Range::Empty => false,
            Range::Wide => true,
            Range::Meets(_) => false,
        }
    }

    /// The least common multiple of a number and the denominators of both ends, where it has ends; None where that
    /// is 2^128 or more.
    pub fn common_scale(&self, scale: u128) -> Option<u128>
        requires { 0 < scale }
        ensures some { IfSome result (IsMultipleOf scale (λ m. AreOnScale m self.now)) }
        ensures none { IfNone result (IsNoneBelow scale (λ m. AreOnScale m self.now)) }
    {
        match *self {
            Range::Meets(interval) => interval.common_scale(scale),
            Range::Empty => Some(scale),
            Range::Wide => Some(scale),
        }
    }

    /// The greater magnitude of the two ends over a common denominator, or the greatest 128-bit number where it
    /// passes that; 0 where it has no ends.
    pub fn greatest(&self, scale: u128) -> u128
        ensures { result ≡ saturated (greatest scale self.now) }
    {
        match *self {
            Range::Meets(interval) => interval.greatest(scale),
            Range::Empty => 0,
            Range::Wide => 0,
        }
    }
}

// The numbers of this interval, or none.
fn between(met: Interval<Frac>) -> Range
    ensures { IsRangeBetween met result }
{
    if met.is_empty() {
        Range::Empty
    } else {
        Range::Meets(met)
    }
}
