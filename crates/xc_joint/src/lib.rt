//! The joint question: whether one value for each data point satisfies all facts and all equations.
#![tactic(auto)]

mod by_corners;
mod closed;
mod contradicting;
mod empties;
mod forests;
pub mod laws;
mod one_forest;
mod problems;
mod refuting;
mod settling;
mod small;
mod solving;
mod types;
mod wides;

pub use by_corners::{Cornered, settle_by_corners};
pub use empties::{EmptyPoint, Ended, ends_refutation, first_empty, refute_empty};
pub use forests::{Settlement, settle_forest};
pub use settling::{Found, settle};
pub use small::{Halt, numbers, small_number};
pub use solving::{Solution, solve};
pub use types::{Cause, Joint, Part};
pub use wides::least_wide;
