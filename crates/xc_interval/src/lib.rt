//! Intervals with open and closed ends over exact numbers, and the interval that a reported fact
//! stands for.
#![tactic(auto)]

mod ends;
mod facts;
mod interval;
pub mod laws;
mod mode;
mod range;
mod scale;
#[cfg(test)]
mod tests;

pub use ends::End;
pub use facts::reported;
pub use interval::Interval;
pub use mode::Mode;
pub use range::Range;
