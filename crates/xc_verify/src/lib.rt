//! The checker: whether a certificate proves what it claims of a system, whoever wrote it.
#![tactic(auto)]

mod feasible;
mod infeasible;
mod judging;
pub mod laws;
mod lines;
mod multiples;
mod scratch;
mod sums;
mod types;

pub use feasible::equation_sum;
pub use infeasible::constant;
pub use judging::verify;
pub use types::{Judgement, Objection, What};
