//! The outside: where bytes come from and where they go.
//!
//! Code that reads files is generic over [`Shelf`], and code that writes is generic over [`Sink`].
//! Each tells what it holds where it can, and counts its faults, so that a caller can prove that it
//! answered a fault only where one came from the outside.
#![tactic(auto)]

mod calls;
mod folder;
mod memory_shelf;
mod memory_sink;
mod shelf;
mod sink;
mod stream;
#[cfg(test)]
mod tests;

pub use folder::FolderShelf;
pub use memory_shelf::MemoryShelf;
pub use memory_sink::{MemorySink, NoMemory};
pub use shelf::{Shelf, ShelfFault};
pub use sink::{Sink, SinkFault};
pub use stream::StreamSink;
