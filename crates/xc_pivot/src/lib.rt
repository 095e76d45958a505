//! The walk along the corners of a problem, by the choice of least numbers, and what its last corner answers, over
//! exact fractions.
#![tactic(auto)]

mod bounds;
mod choosing;
mod deltas;
mod filling;
mod laws;
mod quotients;
mod refuting;
mod small;
mod solving;
mod starting;
mod stepping;
mod turns;
pub mod types;
mod walking;

pub use solving::solve;
pub use walking::walk;
