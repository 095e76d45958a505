// Data points with their facts.
ghost use Rattle.std.specs.Prelude.{◌≡◌};
ghost use Rattle.xc_points.specs.Kept.{AreKept};
ghost use Rattle.xc_points.specs.Places.{place_of};

use std::marker::Model;
use xc_frac::Frac;
use xc_interval::{Interval, Range};
use xc_lists::Items;
use xc_names::NameId;

/// What tells a data point from all others: its concept and its key.
#[derive(Clone, Copy, Debug, PartialEq, Eq, PartialOrd, Ord)]
pub struct Place {
    pub concept: NameId,
    pub key: u64,
}

/// A data point: a concept with a key, for which at least one fact is reported.
#[derive(Debug, Drop)]
pub struct Point {
    /// The number of its concept.
    pub concept: NameId,
    /// The number of its key.
    pub key: u64,
    /// The numbers of its facts, ascending; there is one at least.
    pub facts: Items<u32>,
    /// What all its facts allow.
    pub range: Range,
}

impl Point {
    /// Its concept and its key.
    pub fn place(&self) -> Place
        ensures { result ≡ place_of self.now }
    {
        Place {
            concept: self.concept,
            key: self.key,
        }
    }
}

/// The data points of a report in the order of their first facts, with the interval of each fact, which is
/// None where the fact is wide.
#[derive(Debug, Drop)]
pub struct Points {
    points: Items<Point>,
    ends: Items<Option<Interval<Frac>>>,
}

impl Model for Points {
    ghost use Rattle.xc_points.specs.Kept.{Gathered, AreKept};

    ghost Value = { Gathered };

    ghost view = { λ p. record { points = p.points; ends = p.ends } };

    ghost invariant = { λ p. AreKept p.points p.ends };
}

impl Points {
    /// The points of these facts.
    pub(crate) fn of(points: Vec<Point>, ends: Vec<Option<Interval<Frac>>>) -> Points
        requires { AreKept points.items ends.items }
        ensures points { result.points ≡ points.items }
        ensures ends { result.ends ≡ ends.items }
    {
        Points {
            points: Items::of(points),
            ends: Items::of(ends),
        }
    }

    /// The points.
    ///
    /// Each number of a fact stands in exactly one point, and no other number stands in one. No two points have
    /// one concept and one key, and a point's range is what the intervals of its facts give.
    pub fn as_slice(&self) -> &[Point]
        ensures points { result.now ≡ self.now.points }
        ensures kept { AreKept self.now.points self.now.ends }
    {
        self.points.as_slice()
    }

    /// The interval of each fact; None where it is wide.
    pub fn ends(&self) -> &[Option<Interval<Frac>>]
        ensures { result.now ≡ self.now.ends }
    {
        self.ends.as_slice()
    }
}
