//! What the definitions of this crate say, in the words of arcs and points.
//!
//! The functions do nothing but cite laws of the crates below: their contracts are the laws.
ghost use Rattle.xc_bind.specs.Laws.{AreThose, GoByRole, HasOneAnswer, HasOneSystem};
ghost use Rattle.xc_bind.specs.Solved.{SolutionsAdmit};

use xc_frac::laws::lowest_terms;
use xc_points::laws::points_are_pairs;

/// Where no two points have one concept and one key, the bindings are exactly these: of each network the
/// points of whose concepts an arc leads to a concept that has a point with the same key, by network and then
/// by total; and the terms of each are those of all such arcs, in reading order.
pub fn bindings_are_those()
    ensures { AreThose }
{}

/// A report has one list of bindings.
pub fn bindings_are_one()
    ensures { HasOneAnswer }
{}

/// A report has one system.
pub fn system_is_one()
    ensures { HasOneSystem }
{
    lowest_terms();
    points_are_pairs();
}

/// Where the networks go by role as bytes, the bindings go by role as bytes and then by total.
pub fn roles_ascend()
    ensures { GoByRole }
{}

/// An assignment solves the system of a report exactly where no fact is wide, each may stand for the value of
/// its point by the standard's table, and the equation of each binding holds of the values.
pub fn solutions_admit()
    ensures { SolutionsAdmit }
{}
