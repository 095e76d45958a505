//! What follows from the definitions.
//!
//! The functions do nothing: a function's contract is the law.
ghost use Rattle.xc_joint.specs.Kinds.{HasOneKind};
ghost use Rattle.xc_joint.specs.Laws.{NarrowForestsHaveNumbers, NumbersAreValues, NumbersHaveSums, NarrowForestsHaveRoom, NumbersOfSolutionsSolve, SmallSolves, SolutionsAreValues};
ghost use Rattle.xc_joint.specs.Settling.{NarrowForestsAreSettled};
ghost use Rattle.xc_joint.specs.Steps.UnitSums.{UnitRefutationsSum};

use xc_frac::Exact;
use xc_interval::laws::tighter_ends;
use xc_system::laws::{
    components_decide, contradictions_exclude, equations_name_points, links_are_equivalences,
};
use xc_verify::laws::sums_go_on;

/// A positive number that is small enough puts each value between its ends, open or closed.
pub fn small_solves()
    ensures { SmallSolves }
{}

/// Where values solve a forest of ranges with closed ends, their numbers solve it with the ends as they are.
pub fn numbers_of_solutions_solve()
    ensures { NumbersOfSolutionsSolve }
{}

/// Over the ranges of a narrow forest no sum of two signed sums passes, and no difference: it can be propagated.
pub fn narrow_forests_have_room<E: Exact>()
    ensures { NarrowForestsHaveRoom E.parts E.passes }
{
    xc_forest::laws::narrow_ranges_have_room::<E>();
}

/// Values that are signed sums of the ends of a narrow forest leave room for the small number: they become numbers,
/// and no operation passes on the way.
pub fn narrow_forests_have_numbers()
    ensures { NarrowForestsHaveNumbers }
{}

/// Numbers that solve the ranges and the rows of a component are values of it.
pub fn numbers_are_values()
    ensures { NumbersAreValues }
{
    tighter_ends();
}

/// Values that solve the problem of a component without a wide fact are values of it.
pub fn solutions_are_values()
    ensures { SolutionsAreValues }
{
    tighter_ends();
}

/// No operation passes where the checker sums an equation of a narrow forest over such numbers.
pub fn numbers_have_sums()
    ensures { NumbersHaveSums }
{}

/// Where a refutation with units contradicts a narrow forest, no operation passes in the sums by which it is judged.
pub fn unit_refutations_sum()
    ensures { UnitRefutationsSum }
{
    sums_go_on();
}

/// All answers to a system are of one kind: values exist, none do, or some component has no answer.
pub fn one_kind()
    ensures { HasOneKind }
{
    contradictions_exclude();
    components_decide();
    links_are_equivalences();
    equations_name_points();
}

/// Where every component without an empty point is a narrow forest, and no operation passes in the constant of an
/// empty point, a system is always settled: the answer is a certificate.
pub fn narrow_forests_are_settled()
    ensures { NarrowForestsAreSettled }
{}
