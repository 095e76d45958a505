//! Forests of ranges and rows of signed sums: values that solve one, or multipliers that contradict it.
#![tactic(auto)]

pub mod laws;
mod links;
mod multipliers;
mod narrowing;
mod propagation;
mod spans;
mod tallies;
mod types;
mod undos;
mod values;

pub use propagation::propagate;
pub use types::{Forest, Settled};
