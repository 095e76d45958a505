//! Tables of fractions that are pivoted: the factors of sums over variables, all of them side by side.
#![tactic(auto)]

mod pivoting;
mod tableau;

pub use tableau::Tableau;
