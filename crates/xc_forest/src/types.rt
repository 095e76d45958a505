// Forests, and what settles them, as plain data.
use xc_frac::Exact;
use xc_interval::Interval;
use xc_lists::Items;

/// Ranges of values, and rows of signed sums over them that have to be 0.
#[derive(Debug, Drop)]
pub struct Forest<E: Exact> {
    /// The range of each point.
    pub ranges: Items<Interval<E>>,
    /// The points of each row by their numbers, each with true for a minus sign.
    pub rows: Items<Items<(u32, bool)>>,
}

/// What settles a forest.
#[derive(Debug, Drop)]
pub enum Settled<E: Exact> {
    /// A value for each point, by which the forest is solved.
    Feasible(Items<E>),
    /// Multipliers that contradict it.
    Infeasible {
        /// One for each row: 1, -1 or 0.
        rows: Items<i8>,
        /// One for each range: 1 for its low end, -1 for its high end, 0 for neither.
        ends: Items<i8>,
    },
}
