// Operations on both parts of a number with an infinitely small part, as the operations at a corner name them.
ghost use Rattle.std.specs.Prelude.{◌≢◌, pos, IfOk, IfErr, OnOk};
ghost use Rattle.xc_frac.specs.declared.wide.Op.{Op};
ghost use Rattle.xc_pivot.specs.Deltas.{of_part, GivesEach, StaysEach, PassesOne};

use xc_frac::{Delta, Exact, Frac, Wide};

/// The sum of both parts, or the addition that passes, the real part's first.
pub fn sum(left: Delta<Frac>, right: Delta<Frac>) -> Result<Delta<Frac>, Wide>
    ensures gives { IfOk result (GivesEach Op.Add (of_part left) (of_part right)) }
    ensures stays { OnOk result (StaysEach Op.Add (of_part left) (of_part right)) }
    ensures passes { IfErr result (PassesOne Op.Add (of_part left) (of_part right)) }
{
    left.add(right)
}

/// The difference of both parts, or the subtraction that passes, the real part's first.
pub fn difference(left: Delta<Frac>, right: Delta<Frac>) -> Result<Delta<Frac>, Wide>
    ensures gives { IfOk result (GivesEach Op.Sub (of_part left) (of_part right)) }
    ensures stays { OnOk result (StaysEach Op.Sub (of_part left) (of_part right)) }
    ensures passes { IfErr result (PassesOne Op.Sub (of_part left) (of_part right)) }
{
    left.sub(right)
}

/// A number times both parts, or the multiplication that passes, the real part's first.
pub fn product(by: Frac, parts: Delta<Frac>) -> Result<Delta<Frac>, Wide>
    ensures gives { IfOk result (GivesEach Op.Mul (λ c. by) (of_part parts)) }
    ensures passes { IfErr result (PassesOne Op.Mul (λ c. by) (of_part parts)) }
{
    parts.scaled(by)
}

/// Both parts over a number other than 0, or the division that passes, the real part's first.
pub fn quotient(parts: Delta<Frac>, by: Frac) -> Result<Delta<Frac>, Wide>
    requires { by.num ≢ pos 0 }
    ensures gives { IfOk result (GivesEach Op.Div (of_part parts) (λ c. by)) }
    ensures passes { IfErr result (PassesOne Op.Div (of_part parts) (λ c. by)) }
{
    parts.over(by)
}
