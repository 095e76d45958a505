//! Samples of any size: a schema, a linkbase and a report in which every total agrees with its contributors.
#![tactic(auto)]

mod facts;
pub mod laws;
mod linkbase;
mod numbers;
mod schema;
#[cfg(test)]
mod tests;
mod texts;
pub mod types;
mod values;

pub use texts::{root_value, sample};
