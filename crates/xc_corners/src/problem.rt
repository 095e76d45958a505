// Problems as plain data.
use xc_frac::Frac;
use xc_interval::Interval;
use xc_lists::Items;

/// What is asked of values, one for each range: each lies in its range, and of each row the sum of weight
/// times value over its entries is 0.
#[derive(Debug, Drop)]
pub struct Problem {
    /// The range of each value.
    pub ranges: Items<Interval<Frac>>,
    /// The rows: the number of a range with its weight. A range may stand in a row more than once.
    pub rows: Items<Items<(u32, Frac)>>,
}
