ghost use Rattle.std.specs.Prelude.{◌≡◌, ◌↔◌, IsTrue, ◌&&◌, not};
ghost use Rattle.xc_model.specs.Fraction.{SameNumber, IsBelow};
ghost use Rattle.xc_model.specs.Parts.{IsLess, SameParts};
ghost use Rattle.xc_interval.specs.Ends.{value_of, is_open, end_at};
ghost use Rattle.xc_interval.specs.Intervals.{AreReal};
ghost use Rattle.xc_interval.specs.Tightest.{IsTighterLow, IsTighterHigh};

use std::cmp::Ordering;
use xc_frac::Exact;

/// One end of an interval.
#[derive(Clone, Copy, Debug, PartialEq, Eq)]
pub enum End<E> {
    /// The value belongs to the interval.
    Closed(E),
    /// The value just does not.
    Open(E),
}

impl<E: Copy> End<E> {
    /// The value at which the end is.
    pub fn value(self) -> E
        ensures { result ≡ value_of self }
    {
        match self {
            End::Closed(value) => value,
            End::Open(value) => value,
        }
    }

    /// Whether the value itself is left out.
    pub fn is_open(self) -> bool
        ensures { result ≡ is_open self }
    {
        match self {
            End::Closed(_) => false,
            End::Open(_) => true,
        }
    }

    // An end at a value, open or closed.
    pub(crate) fn at(value: E, opens: bool) -> End<E>
        ensures value { value_of result ≡ value }
        ensures opens { is_open result ≡ opens }
    {
        if opens {
            End::Open(value)
        } else {
            End::Closed(value)
        }
    }

    // Whether it is open where another is closed.
    fn opens_beside(self, other: End<E>) -> bool
        ensures { result ≡ (is_open self && not (is_open other)) }
    {
        self.is_open() && !other.is_open()
    }
}

impl<E: Exact> End<E> {
    /// Whether this low end is tighter than another: higher, or at the same value and open where the other is
    /// closed. Of ends that are equally tight neither is tighter, so whoever keeps an end until a tighter one comes
    /// keeps the first of equal ones.
    pub fn is_tighter_low(self, other: End<E>) -> bool
        ensures pairs { IsTrue result
            ↔ IsTighterLow IsLess SameParts (end_at E.parts self) (end_at E.parts other) }
        ensures numbers { AreReal E.parts → IsTrue result ↔ IsTighterLow IsBelow SameNumber
            (end_at (λ e. (E.parts e).real) self) (end_at (λ e. (E.parts e).real) other) }
    {
        match self.value().compare(other.value()) {
            Ordering::Less => false,
            Ordering::Equal => self.opens_beside(other),
            Ordering::Greater => true,
        }
    }

    /// Whether this high end is tighter than another: lower, or at the same value and open where the other is
    /// closed. Of ends that are equally tight neither is tighter.
    pub fn is_tighter_high(self, other: End<E>) -> bool
        ensures pairs { IsTrue result
            ↔ IsTighterHigh IsLess SameParts (end_at E.parts self) (end_at E.parts other) }
        ensures numbers { AreReal E.parts → IsTrue result ↔ IsTighterHigh IsBelow SameNumber
            (end_at (λ e. (E.parts e).real) self) (end_at (λ e. (E.parts e).real) other) }
    {
        match self.value().compare(other.value()) {
            Ordering::Less => true,
            Ordering::Equal => self.opens_beside(other),
            Ordering::Greater => false,
        }
    }
}
