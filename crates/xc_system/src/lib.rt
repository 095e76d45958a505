//! Systems of bounds and equations: what the facts of a report and its calculation bindings ask of the
//! values of its data points, and the components into which they fall.
#![tactic(auto)]

mod forests;
mod grouping;
pub mod laws;
mod linking;
mod refutation;
mod roots;
mod scratch;
mod spots;
mod systems;
#[cfg(test)]
mod tests;
mod types;

pub use forests::is_narrow_forest;
pub use linking::components;
pub use refutation::Refutation;
pub use scratch::Scratch;
pub use systems::System;
pub use types::{Bound, Certificate, Component, Entry, Equation, Side, Spot};
