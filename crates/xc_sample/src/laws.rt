//! What the definitions of this crate say, in the words of nodes.
//!
//! Each function does nothing: its contract is the law.
ghost use Rattle.xc_sample.specs.Laws.{LeavesAreNumbers, TotalsAreSums};

/// A node without children has its number as value.
pub fn leaves_are_numbers()
    ensures { LeavesAreNumbers }
{}

/// A node with children has the sum of their values as value, and 1 more where none of them has children.
pub fn totals_are_sums()
    ensures { TotalsAreSums }
{}
