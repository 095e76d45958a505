ghost use Rattle.std.specs.Prelude.{◌≡◌};

use crate::frac::Frac;

/// An operation on two fractions.
#[derive(Clone, Copy, Debug, PartialEq, Eq)]
pub enum Op {
    Add,
    Sub,
    Mul,
    Div,
}

/// An operation that passes 128 bits, with its operands in their order.
#[derive(Clone, Copy, Debug, PartialEq, Eq)]
pub struct Wide {
    pub op: Op,
    pub left: Frac,
    pub right: Frac,
}

impl Wide {
    pub(crate) fn of(op: Op, left: Frac, right: Frac) -> Wide
        ensures { result ≡ record { op = op; left = left; right = right } }
    {
        Wide { op, left, right }
    }
}
