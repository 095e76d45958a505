//! Walks and answers, and what is kept on the way.
use xc_corners::{Corner, Multipliers};
use xc_frac::{Delta, Frac, Wide};
use xc_lists::Items;
use xc_tableau::Tableau;

/// Where a walk along the corners of a problem ends.
#[derive(Debug, Drop)]
pub enum Walk {
    /// At the last corner.
    Last(Corner),
    /// At a corner where this operation passes.
    TooWide(Corner, Wide),
}

/// What solving a problem answers.
#[derive(Debug, Drop)]
pub enum Outcome {
    /// Values that solve it, one for each range.
    Feasible(Items<Frac>),
    /// Multipliers that contradict it.
    Infeasible(Multipliers),
    /// A corner where this operation passes.
    TooWide(Corner, Wide),
}

/// Where a variable stands: in a row of the table, where it is basic, or in a column of it, on its low or
/// its high side.
#[derive(Clone, Copy)]
pub(crate) enum Place {
    Row(u32),
    Low(u32),
    High(u32),
}

/// The variable that leaves, with its row, and past which bound it is: the low one or, above, the high one.
#[derive(Clone, Copy)]
pub(crate) struct Leaving {
    pub variable: u32,
    pub row: u32,
    pub above: bool,
}

/// The variable that enters, with its column.
#[derive(Clone, Copy)]
pub(crate) struct Entering {
    pub variable: u32,
    pub column: u32,
}

/// Both.
#[derive(Clone, Copy)]
pub(crate) struct Choice {
    pub leaving: Leaving,
    pub entering: Entering,
}

/// The factors of a corner, the values of its basic variables by rows, and the places of all variables.
#[derive(Drop)]
pub(crate) struct State {
    pub table: Tableau,
    pub values: Vec<Delta<Frac>>,
    pub places: Vec<Place>,
}
