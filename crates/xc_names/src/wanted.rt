use crate::expanded::NameId;
use xc_lists::Items;

/// The concepts that a taxonomy asks for: the ends of its chosen arcs, and the dimensions whose
/// values are typed. Each list has every number once, ascending.
#[derive(Debug, Drop)]
pub struct Wanted {
    /// The concepts at either end of a chosen arc.
    pub nodes: Items<NameId>,
    /// The typed concepts.
    pub typed: Items<NameId>,
}
