//! Calculation bindings: the totals of a report that are to be judged, each with its terms.
#![tactic(auto)]

mod arcs_from;
mod bound;
mod constraints;
pub mod laws;
mod point_index;
#[cfg(test)]
mod tests;
mod totals;
mod types;

pub use bound::bindings;
pub use constraints::system;
pub use types::{Binding, Term, Verdict};
