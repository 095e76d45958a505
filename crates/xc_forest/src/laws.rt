//! What follows from the definitions for all forests. The functions do nothing: code calls one where its proof
//! needs the clauses.
ghost use Rattle.xc_forest.specs.Laws.{ContradictionsExclude, NarrowRangesHaveRoom, SumsAreOver};

use xc_frac::Exact;

/// Where the magnitudes of all ends together fit twice over one denominator, no sum of two signed sums passes, and
/// no difference: so `propagate` may be called.
pub fn narrow_ranges_have_room<E: Exact>()
    ensures { NarrowRangesHaveRoom E.parts E.passes }
{
    xc_frac::laws::sums_have_room::<E>();
}

/// Where multipliers contradict a forest, no values lie in all its ranges and meet all its rows.
pub fn contradictions_exclude()
    ensures { ContradictionsExclude }
{}

/// Over one denominator, sums of pairs have the sums of their parts.
pub fn sums_are_over()
    ensures { SumsAreOver }
{}
