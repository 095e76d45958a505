/// How the values of a report were made from exact ones (Calculations 1.1).
#[derive(Clone, Copy, Debug, PartialEq, Eq)]
pub enum Mode {
    /// Rounded to the nearest value of the place.
    Rounding,
    /// Cut off after the place, towards 0.
    Truncation,
}
