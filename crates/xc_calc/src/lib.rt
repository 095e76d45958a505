//! Calculation linkbases: the arcs that they hold over the concepts of schemas, and the networks of
//! those that are effective.
#![tactic(auto)]

mod arc;
mod arcs;
mod attributes;
mod common;
mod drawn;
mod effective;
mod elements;
mod ends;
mod fault;
mod groups;
pub mod laws;
mod linked;
mod lists_by_key;
mod locators;
mod networks;
mod shared;
mod wanted;

pub use arc::{Arc, ArcKind, ListedArc, Network, Use};
pub use arcs::Arcs;
pub use elements::is_linkbase;
pub use fault::LinkFault;
pub use shared::Shared;
