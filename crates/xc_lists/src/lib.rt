//! Texts and lists as contracts see them, a list that finds its first items by an index, doubles among
//! pairs of texts, and want of memory as an error; with what is said of places in lists.
#![tactic(auto)]

mod doubles;
mod firsts;
mod items;
mod memory;
#[cfg(test)]
mod tests;
mod text;

pub use doubles::{TextPair, has_equal_pairs};
pub use firsts::Firsts;
pub use items::Items;
pub use memory::Memory;
pub use text::Text;
