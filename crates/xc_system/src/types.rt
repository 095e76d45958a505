// Systems and what is said of them, as plain data.
use crate::refutation::Refutation;
use xc_frac::Frac;
use xc_interval::{Interval, Range};
use xc_lists::Items;

/// What a reported fact allows for the value of its data point.
#[derive(Clone, Copy, Debug)]
pub struct Bound {
    /// The number of its point.
    pub point: u32,
    /// The interval in which the value lies; None where the fact is wide.
    pub range: Option<Interval<Frac>>,
}

/// A point in an equation, with its weight.
#[derive(Clone, Copy, Debug)]
pub struct Entry {
    /// The number of the point.
    pub point: u32,
    /// What its value is multiplied by.
    pub weight: Frac,
}

/// What a calculation binding says of the values: the sum over its entries of weight times value is 0.
/// The total stands first with the weight 1, and each term with minus its own.
#[derive(Debug, Drop)]
pub struct Equation {
    /// The points with their weights; a point may stand there more than once.
    pub entries: Items<Entry>,
}

/// One of the two ends of an interval.
#[derive(Clone, Copy, Debug, PartialEq, Eq)]
pub enum Side {
    Low,
    High,
}

/// What all facts of a point allow, and which of them are the tightest.
#[derive(Clone, Copy, Debug)]
pub struct Spot {
    /// The values that lie in the intervals of all its facts.
    pub range: Range,
    /// The first fact whose low end is the tightest; the first wide one where a fact is wide.
    pub low: u32,
    /// The first fact whose high end is the tightest; the first wide one where a fact is wide.
    pub high: u32,
}

/// Points that equations link, with these equations.
#[derive(Debug, Drop)]
pub struct Component {
    /// The numbers of the points, ascending; there is one at least.
    pub points: Items<u32>,
    /// The numbers of the equations, ascending.
    pub equations: Items<u32>,
}

/// A claim about a system that can be checked.
#[derive(Debug, Drop)]
pub enum Certificate {
    /// A value for each point, by which the system is solved.
    Feasible(Items<Frac>),
    /// Multipliers that contradict it.
    Infeasible(Refutation),
}
