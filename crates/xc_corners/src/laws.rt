//! What follows from the definitions for all problems. The functions do nothing: code calls one where its
//! proof needs the clauses.
ghost use Rattle.xc_corners.specs.Laws.{IsWholeToo, FirstFactors, FirstRowValues, FirstRangeValues, CountsVariables, EndBounds, RowBounds, BoundsInOrder, EnteringFactors, LeavingFactors, OtherFactors, EnteringValue, BasicValue, LeavingValue, OtherValue, HasOneSolvedForm, ExchangeSolves, FirstSolved, ReachedSolved, FirstAreRows, ExchangeMovesTwo, OtherIsAtBound, HasOneValue, OutsideIsNotWithin, HasOneLeaving, NeverComesBack, HasFewExchanges, HasOneChoice, IsOneRun, RunGoesOn, OneLeadsOn, FeasibleIsLast, ConflictIsLast, ConflictRefutes, ConflictContradicts, SmallIsPositive, FeasibleSolves};

/// A corner has at most one solved form, an exchange gives that of the next corner, and the first corner and
/// each other one of the run has one.
pub fn solved_forms()
    ensures one { HasOneSolvedForm }
    ensures next { ExchangeSolves }
    ensures first { FirstSolved }
    ensures reached { ReachedSolved }
{}

/// At the first corner the variables of rows are basic, and an exchange puts one variable in the place of
/// another.
pub fn basic_variables()
    ensures first { FirstAreRows }
    ensures exchanged { ExchangeMovesTwo }
{}

/// Whichever solved form of a corner is taken, its values are the same; so the same variable leaves, past the
/// same bound. What is not basic has the bound of its side as its value.
pub fn values_at_corners()
    ensures others { OtherIsAtBound }
    ensures one { HasOneValue }
    ensures outside { OutsideIsNotWithin }
    ensures leaving { HasOneLeaving }
{}

/// In a part of a run in which only variables up to one move, that one does not leave and later enter. So
/// a run over v variables has fewer than 3^v exchanges.
pub fn runs_end()
    ensures never_back { NeverComesBack }
    ensures few { HasFewExchanges }
{}

/// A corner has at most one choice and one next corner, so the run is one list, along which one of two corners
/// leads to the other; and none follows a corner that is feasible or a conflict.
pub fn one_run()
    ensures choice { HasOneChoice }
    ensures run { IsOneRun }
    ensures on { RunGoesOn }
    ensures along { OneLeadsOn }
    ensures feasible { FeasibleIsLast }
    ensures conflict { ConflictIsLast }
{}

/// The operations at a corner give exactly the factors of the next one.
pub fn operations_give_factors()
    ensures entering { EnteringFactors }
    ensures leaving { LeavingFactors }
    ensures others { OtherFactors }
{}

/// The operations at a corner give exactly the values at the next one.
pub fn operations_give_values()
    ensures entering { EnteringValue }
    ensures basic { BasicValue }
    ensures leaving { LeavingValue }
    ensures others { OtherValue }
{}

/// A problem whose rows name ranges, none of them empty, is one in whole numbers too, with as many ranges and
/// rows, and bounds by the ends of the ranges; and the operations at the first corner give exactly its factors
/// and values.
pub fn problems_are_whole()
    ensures whole { IsWholeToo }
    ensures factors { FirstFactors }
    ensures rows { FirstRowValues }
    ensures ranges { FirstRangeValues }
    ensures variables { CountsVariables }
    ensures ends { EndBounds }
    ensures zeros { RowBounds }
    ensures order { BoundsInOrder }
{}

/// At a conflict the refutation contradicts the problem: in whole numbers, and as its multipliers are listed.
pub fn conflicts_contradict()
    ensures refutes { ConflictRefutes }
    ensures contradicts { ConflictContradicts }
{}

/// At a feasible corner the small number is positive, and the values with it solve the problem.
pub fn feasible_corners_solve()
    ensures positive { SmallIsPositive }
    ensures solves { FeasibleSolves }
{}
