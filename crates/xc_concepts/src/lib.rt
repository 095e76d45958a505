//! What the schemas of a taxonomy declare: concepts, whether they are decimal or typed, and the ids
//! under which they are found.
#![tactic(auto)]

mod concepts;
mod elements;
mod fault;
mod ids;
mod kind;
mod kinds;
pub mod laws;
mod links;
mod reading;
mod references;
mod rules;
mod schema;
mod typed;

pub use concepts::Concepts;
pub use elements::is_schema;
pub use fault::SchemaFault;
pub use kind::Kind;
pub use schema::{Concept, Declared, NamedType, Schema};
