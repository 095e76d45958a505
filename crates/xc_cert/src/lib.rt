//! Certificates as texts: written, and read back.
#![tactic(auto)]

mod fault;
pub mod laws;
mod line;
mod read;
mod reader;
#[cfg(test)]
mod tests;
mod write;

pub use fault::CertFault;
pub use read::read_certificate;
pub use write::write_certificate;
