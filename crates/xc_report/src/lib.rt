//! Reports in xBRL-JSON.
//!
//! `open_report` opens any report and names the first part that is not as it has to be. `Draft::facts`
//! then reads the facts of the concepts that are wanted, each with the number of its key: its
//! dimensions with their values.
#![tactic(auto)]

mod dimensions;
mod doubles;
mod drafts;
mod forms;
mod gained;
mod key_lists;
mod known;
pub mod laws;
mod numbered;
mod parts;
mod periods;
mod prefixed;
mod reports;
mod stated;
mod stated_facts;
mod stated_parts;
mod units;

pub use dimensions::{DimValue, Dimension, Key};
pub use drafts::{Draft, open_report};
pub use key_lists::Keys;
pub use numbered::KeyedFact;
pub use reports::{Fact, Member, Reading, Report, ReportFault};
pub use stated::{DimensionName, StatedFact, StatedPart, StatedValue};
