//! XML documents, read as trees with expanded names.
#![tactic(auto)]

mod attributes;
mod declarations;
mod declared;
mod documents;
mod doubles;
mod expanded;
mod fault;
mod items;
pub mod laws;
mod names;
mod nodes;
mod opens;
mod read;
mod reader;
mod references;
mod refusal;
mod scope;
mod tags;
mod texts;
mod trees;

pub use declared::Declared;
pub use fault::TreeFault;
pub use nodes::{Attribute, NamespaceDeclaration, Node};
pub use read::read_tree;
pub use trees::{DECLARATIONS_SPACE, Tree, XML_SPACE};
