//! The characters of XML 1.0, plain names made of them, texts cut at a byte, and texts without the white space around them.
#![tactic(auto)]

pub mod characters;
pub mod laws;
mod parts;
mod plain_names;
#[cfg(test)]
mod tests;
mod white_space;

pub use parts::{around, file_name};
pub use plain_names::{is_plain_name, split};
pub use white_space::trimmed;
