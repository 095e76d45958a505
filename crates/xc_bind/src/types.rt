// Bindings and what is said of them.
use xc_decimal::Decimal;
use xc_lists::Items;

/// A contributor of a binding.
#[derive(Clone, Copy, Debug)]
pub struct Term {
    /// The number of its data point.
    pub point: u32,
    /// The weight of its arc.
    pub weight: Decimal,
}

/// A total of one network with those of its contributors that are reported (Calculations 1.1).
#[derive(Debug, Drop)]
pub struct Binding {
    /// The number of its network.
    pub network: u32,
    /// The number of the total's data point.
    pub total: u32,
    /// One for each arc from the total to a contributor that is reported, in reading order; there is one at least.
    pub terms: Items<Term>,
}

/// What is said of a binding (Calculations 1.1).
#[derive(Clone, Copy, Debug, PartialEq, Eq)]
pub enum Verdict {
    /// Values exist in the ranges of the points, such that the total's is the sum of the terms', each with its weight.
    Consistent,
    /// No values in the ranges of the points are such that the total's is the sum of the terms', each with its weight.
    Inconsistent,
    /// A point has facts that no value satisfies together.
    Unjudged,
    /// A fact, or the binding as a whole, passes the widths in which it is judged.
    TooWide,
}
