//! Exact 128-bit fractions, numbers with an infinitely small part, and least common multiples.
#![tactic(auto)]

mod delta;
mod exact;
mod frac;
mod integers;
pub mod laws;
mod multiples;
mod order;
mod scalar_frac;
mod tens;
#[cfg(test)]
mod tests;
mod wide;

pub use delta::Delta;
pub use exact::{Exact, Scalar};
pub use frac::{Frac, ratio};
pub use multiples::least_common;
pub use tens::power;
pub use wide::{Op, Wide};
pub use xc_lists::Memory;
