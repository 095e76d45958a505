// What was done to a forest while its vertices were taken away.
use crate::spans::Bounds;
use xc_frac::Exact;

/// How a vertex was taken away.
#[derive(Drop)]
pub(crate) enum Undo<E: Exact> {
    /// A point that was left in one row alone: the row's span was lessened by the point's.
    Point {
        point: u32,
        row: u32,
        minus: bool,
        of_row: Bounds<E>,
        of_point: Bounds<E>,
    },
    /// A row that had one point left: the point's span met the row's.
    Row {
        row: u32,
        point: u32,
        minus: bool,
        low_of_row: bool,
        high_of_row: bool,
    },
    /// A vertex without neighbours, with the value that it takes.
    Alone {
        vertex: u32,
        value: E,
    },
}

/// Multipliers of a row and a point whose spans do not meet.
#[derive(Clone, Copy, Drop)]
pub(crate) struct Clash {
    pub(crate) row: u32,
    pub(crate) row_by: i8,
    pub(crate) point: u32,
    pub(crate) point_by: i8,
}
