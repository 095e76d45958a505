// Multipliers as plain data.
use xc_frac::Frac;
use xc_lists::Items;

/// Multipliers of rows, of low ends of ranges and of high ends: the number of each with its multiplier.
#[derive(Debug, Drop)]
pub struct Multipliers {
    /// Rows.
    pub rows: Items<(u32, Frac)>,
    /// Ranges whose low end is multiplied.
    pub lows: Items<(u32, Frac)>,
    /// Ranges whose high end is multiplied.
    pub highs: Items<(u32, Frac)>,
}
