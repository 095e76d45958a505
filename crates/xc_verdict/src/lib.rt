//! Verdicts: whether the total of a binding agrees with its contributors.
#![tactic(auto)]

mod judging;
pub mod laws;
mod ranges;
mod scale;
mod sums;
#[cfg(test)]
mod tests;
mod width;

pub use judging::verdict;
