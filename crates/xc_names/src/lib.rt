//! Expanded names and their numbers, what prefixes stand for, and the texts that name both.
#![tactic(auto)]

mod expanded;
mod expansion;
pub mod laws;
mod name_set;
mod names;
mod numbers;
mod prefixes;
#[cfg(test)]
mod tests;
mod wanted;

pub use expanded::{Expanded, NameId};
pub use expansion::{NameFault, expand};
pub use name_set::NameSet;
pub use names::Names;
pub use prefixes::Prefixes;
pub use wanted::Wanted;
pub use xc_chars::{is_plain_name, split};
