//! What follows from the definitions for all systems and certificates. The functions do nothing: code calls one where
//! its proof needs the clauses.
ghost use Rattle.xc_verify.specs.Laws.{AcceptanceProves, ContradictionsAreAccepted, HasOneJudgement, HasOneSum, SolutionsAreAccepted, SumsGoOn};

use xc_frac::laws::lowest_terms;
use xc_system::laws::contradictions_exclude;

/// A certificate has one judgement.
pub fn one_judgement()
    ensures { HasOneJudgement }
{
    lowest_terms();
}

/// A certificate that is accepted proves what it claims of the system.
pub fn acceptance_proves()
    ensures { AcceptanceProves }
{
    contradictions_exclude();
}

/// Terms have one sum: its end, or the first operation that passes.
pub fn one_sum()
    ensures { HasOneSum }
{
    lowest_terms();
}

/// A sum goes on from its end.
pub fn sums_go_on()
    ensures { SumsGoOn }
{}

/// What solves the system, or contradicts it, is accepted where no operation passes in the sums that are made.
pub fn proofs_are_accepted()
    ensures solutions { SolutionsAreAccepted }
    ensures contradictions { ContradictionsAreAccepted }
{}
