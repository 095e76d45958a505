// What the proofs along the run take of the laws of corners.
ghost use Rattle.xc_pivot.specs.CornerLaws.{CornerLaws};

use xc_corners::laws::{one_run, solved_forms, values_at_corners};

/// A corner has one solved form, one value of each variable, one choice and one next corner; and the run ends
/// where there is no choice.
pub fn corner_laws()
    ensures { CornerLaws }
{
    solved_forms();
    values_at_corners();
    one_run();
}
