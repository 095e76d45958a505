//! Decimal numbers and fractions, read from texts and written to them.
#![tactic(auto)]

mod decimal;
mod digits;
mod fractions;
pub mod laws;
mod reading;
#[cfg(test)]
mod tests;

pub use decimal::{Decimal, DecimalFault};
pub use fractions::{read_frac, write_frac};
pub use reading::read_decimal;
