//! Data points: the facts of one concept with one key, and the values that all of them allow.
#![tactic(auto)]

mod gathering;
mod groups;
mod intervals;
pub mod laws;
mod ranges;
#[cfg(test)]
mod tests;
pub mod types;

pub use gathering::points;
pub use types::{Place, Point, Points};
