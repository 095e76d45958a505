//! What follows from the definitions for all points. The functions do nothing: code calls one where its proof needs
//! the clauses.
ghost use Rattle.xc_points.specs.Laws.{HasPoint, HasOwnFacts, HasDistinct, HasOneRange, HasOneEnds};

use xc_interval::laws::{ends_tell, one_interval};

/// The points are the distinct pairs of a concept and a key that the facts have: each fact is one of a point with its
/// concept and its key, a point has no other facts, and no two points have the same ones.
pub fn points_are_pairs()
    ensures point { HasPoint }
    ensures facts { HasOwnFacts }
    ensures distinct { HasDistinct }
{}

/// The range of a point is decided by the mode and the facts.
pub fn one_range()
    ensures { HasOneRange }
{
    ends_tell();
    one_interval();
}

/// The intervals of facts are decided by the mode and the facts. What they give a point is decided by them:
/// `xc_interval::laws::one_range`.
pub fn one_list_of_ends()
    ensures { HasOneEnds }
{
    one_interval();
}
