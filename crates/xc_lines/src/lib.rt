//! The lines of an output: what is found of a report's bindings and data points, what is said of all of them together, the
//! judgement of a certificate, and what is said in place of these.
#![tactic(auto)]

mod found;
mod joints;
mod judgements;
pub mod laws;
mod lines;
mod settled;
mod summary;
mod texts;

pub use found::findings;
pub use joints::joint_lines;
pub use judgements::judgement_line;
pub use lines::{placed_refusal_line, read_fault_line, refusal_line, usage_line};
pub use settled::settled_lines;
pub use summary::{is_inconsistent, is_too_wide, summary_lines};
pub use texts::printed_text;

#[cfg(test)]
mod tests;
