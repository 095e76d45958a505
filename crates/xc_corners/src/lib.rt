//! Problems of ranges and rows, and the walk along their corners: solved forms, the choice by least
//! numbers, the exchange to the next corner, what the last one gives, and which operations on fractions stand at
//! a corner.
#![tactic(auto)]

mod corner;
pub mod laws;
mod multipliers;
mod problem;

pub use corner::Corner;
pub use multipliers::Multipliers;
pub use problem::Problem;
