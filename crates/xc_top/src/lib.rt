//! The top call: what the words ask for, over the files of a shelf, written to a sink.
#![tactic(auto)]

mod answer;
mod certified;
mod check;
mod documents;
mod findings;
mod joint;
mod judged;
pub mod laws;
mod refusals;
mod sample;
mod status;
mod sum;
mod taxonomy;
mod top;
mod verdicts;
mod words;

pub use documents::{Content, Document};
pub use status::{Answer, Status};
pub use top::run;
