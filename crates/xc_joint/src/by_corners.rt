// One component that is solved along the corners of its problem.
ghost use Rattle.std.specs.Prelude.{◌≡◌, ◌≤◌, IfNone, IfOk, IfSome, length};
ghost use Rattle.xc_corners.specs.Problems.{IsProblem, IsSmallProblem};
ghost use Rattle.xc_joint.specs.Answers.{AreValuesOf};
ghost use Rattle.xc_joint.specs.Causes.{HasNoEmpty, HasNoWide};
ghost use Rattle.xc_joint.specs.ComponentProblems.{IsProblemOf};
ghost use Rattle.xc_joint.specs.Lists.{AreAmong};
ghost use Rattle.xc_joint.specs.Steps.ByCorners.{IsChecked, IsCornered, IsInfeasible, IsOfConflict, NamesPassing, PassesInSum, SumsPassNowhere};
ghost use Rattle.xc_pivot.specs.Solving.{IsSolution, NothingStops};
ghost use Rattle.xc_pivot.specs.Walks.{IsLastCorner};
ghost use Rattle.xc_system.specs.Components.{IsComponent};
ghost use Rattle.xc_system.specs.Refutations.{IsContradictionOf};
ghost use Rattle.xc_verify.specs.Judgements.{IsTooWide};

use crate::contradicting::problem_refutation;
use crate::laws::solutions_are_values;
use crate::one_forest::spans;
use crate::problems::problem;
use crate::settling::put_values;
use std::alloc::Global;
use xc_corners::laws::{one_run, problems_are_whole, solved_forms};
use xc_corners::{Corner, Problem};
use xc_frac::{Frac, Wide};
use xc_lists::{Items, Memory};
use xc_pivot::types::{Outcome, Walk};
use xc_pivot::{solve, walk};
use xc_system::laws::{
    components_are_closed, components_decide, contradictions_exclude, equations_name_points,
};
use xc_system::{Certificate, Component, Refutation, Scratch, System};
use xc_verify::laws::one_sum;
use xc_verify::{Judgement, equation_sum, verify};

/// What becomes of a component that is solved along the corners of its problem.
#[derive(Debug, Drop)]
pub enum Cornered {
    /// A value for each of its points in order, by which it is solved.
    Values(Items<Frac>),
    /// Multipliers that contradict it.
    Refuted(Refutation),
    /// A corner of its problem, and an operation that passes 128 bits there: on the way to an answer, or where the
    /// checker sums the answer.
    TooWide(Corner, Wide),
}

// The first operation that passes where the equations of a component are summed over these values of all points.
fn first_passing_operation(system: &System, component: &Component, values: &[Frac]) -> Option<Wide>
    requires component { IsComponent system.now component.now }
    requires values { system.now.points ≤ length values.now }
    ensures none { IfNone result (SumsPassNowhere system.now component.now values.now) }
    ensures some { IfSome result (PassesInSum system.now component.now values.now) }
{
    components_are_closed();
    for number in component.equations.as_slice() {
        if let Err(wide) = equation_sum(system, *number, values) {
            return Some(wide);
        }
    }
    None
}

// The first operation that passes where the equations of a component are summed over these values of its points, which
// are written among those of all points.
fn passing_operation_with(
    system: &System,
    component: &Component,
    values: &[Frac],
    all: &mut [Frac],
) -> Option<Wide>
    requires component { IsComponent system.now component.now }
    requires each { length values.now ≡ length component.now.points }
    requires all { length all.old ≡ system.now.points }
    ensures among { AreAmong component.now.points values.now all.new }
    ensures none { IfNone result (SumsPassNowhere system.now component.now all.new) }
    ensures some { IfSome result (PassesInSum system.now component.now all.new) }
    ensures length { length all.new ≡ length all.old }
{
    components_are_closed();
    put_values(all, component.points.as_slice(), values);
    first_passing_operation(system, component, all)
}

// The last corner of a problem, where no operation passes on the way to its answer.
fn last_corner(alloc: Global, problem: &Problem) -> Result<Corner, Memory>
    requires problem { IsProblem problem.now }
    requires small { IsSmallProblem problem.now }
    requires nothing { NothingStops problem.now }
    ensures { IfOk result (IsLastCorner problem.now) }
{
    match walk(alloc, problem)? {
        Walk::Last(corner) => Ok(corner),
        Walk::TooWide(_, _) => unreachable!(),
    }
}

// What the checker's sums say of a refutation: in none of them an operation passes, or this one does.
#[derive(Drop)]
pub(crate) enum Checked {
    Summed(Refutation),
    Passes(Wide),
}

// Sums a refutation of a component as the checker does.
fn check_sums(
    system: &System,
    component: &Component,
    refutation: Refutation,
    scratch: &mut Scratch,
) -> Checked
    requires component { IsComponent system.now component.now }
    requires contradicts { IsContradictionOf system.now component.now refutation }
    requires sums { system.now.points ≤ length scratch.old.sums }
    requires stops { system.now.points ≤ length scratch.old.stops }
    ensures is { IsChecked system.now refutation result }
    ensures sums { length scratch.new.sums ≡ length scratch.old.sums }
    ensures stops { length scratch.new.stops ≡ length scratch.old.stops }
    ensures marks { scratch.new.marks ≡ scratch.old.marks }
{
    components_decide();
    contradictions_exclude();
    let _points = system.points();
    let _of = component;
    let certificate = certificate_of(refutation);
    let judgement = verify(system, &certificate, scratch);
    match passing_operation(judgement) {
        Some(wide) => Checked::Passes(wide),
        None => Checked::Summed(refutation_in(certificate)),
    }
}

// The certificate that a refutation makes.
fn certificate_of(refutation: Refutation) -> Certificate
    ensures { result ≡ Certificate.Infeasible refutation }
{
    Certificate::Infeasible(refutation)
}

// The refutation of which a certificate was made.
fn refutation_in(certificate: Certificate) -> Refutation
    requires { IsInfeasible certificate }
    ensures { certificate ≡ Certificate.Infeasible result }
{
    match certificate {
        Certificate::Infeasible(refutation) => refutation,
        Certificate::Feasible(_) => unreachable!(),
    }
}

// The operation that a judgement names.
fn passing_operation(judgement: Judgement) -> Option<Wide>
    ensures some { IfSome result (λ wide. NamesPassing judgement wide) }
    ensures none { IfNone result (¬ IsTooWide judgement) }
{
    match judgement {
        Judgement::TooWide(_, wide) => Some(wide),
        Judgement::Accepted => None,
        Judgement::Misses(_) => None,
        Judgement::WideFact(_) => None,
    }
}

// What becomes of a component by values that solve its problem.
fn settle_by_values(
    alloc: Global,
    system: &System,
    component: &Component,
    problem: &Problem,
    values: Items<Frac>,
    scratch: &mut Scratch,
) -> Result<Cornered, Memory>
    requires component { IsComponent system.now component.now }
    requires of { IsProblemOf system.now component.now problem.now }
    requires can_be_solved { IsProblem problem.now }
    requires small { IsSmallProblem problem.now }
    requires solution { IsSolution problem.now values }
    requires are { AreValuesOf system.now component.now values }
    requires sums { length scratch.old.sums ≡ system.now.points }
    ensures answer { IfOk result (IsCornered system.now component.now) }
    ensures sums { length scratch.new.sums ≡ length scratch.old.sums }
    ensures stops { scratch.new.stops ≡ scratch.old.stops }
    ensures marks { scratch.new.marks ≡ scratch.old.marks }
{
    solved_forms();
    one_run();
    one_sum();
    problems_are_whole();
    components_are_closed();
    equations_name_points();
    let _points = system.points();
    let passing = passing_operation_with(
        system,
        component,
        values.as_slice(),
        scratch.sums.as_mut_slice(),
    );
    match passing {
        None => Ok(Cornered::Values(values)),
        Some(wide) => {
            let corner = last_corner(alloc, problem)?;
            Ok(Cornered::TooWide(corner, wide))
        }
    }
}

// What becomes of a component by the refutation of a conflict.
fn settle_by_refutation(
    alloc: Global,
    system: &System,
    component: &Component,
    problem: &Problem,
    refutation: Refutation,
    scratch: &mut Scratch,
) -> Result<Cornered, Memory>
    requires component { IsComponent system.now component.now }
    requires of { IsProblemOf system.now component.now problem.now }
    requires can_be_solved { IsProblem problem.now }
    requires small { IsSmallProblem problem.now }
    requires contradicts { IsContradictionOf system.now component.now refutation }
    requires conflict { IsOfConflict system.now component.now problem.now refutation }
    requires sums { system.now.points ≤ length scratch.old.sums }
    requires stops { system.now.points ≤ length scratch.old.stops }
    ensures answer { IfOk result (IsCornered system.now component.now) }
    ensures sums { length scratch.new.sums ≡ length scratch.old.sums }
    ensures stops { length scratch.new.stops ≡ length scratch.old.stops }
    ensures marks { scratch.new.marks ≡ scratch.old.marks }
{
    solved_forms();
    one_run();
    one_sum();
    problems_are_whole();
    match check_sums(system, component, refutation, scratch) {
        Checked::Summed(refutation) => Ok(Cornered::Refuted(refutation)),
        Checked::Passes(wide) => {
            let corner = last_corner(alloc, problem)?;
            Ok(Cornered::TooWide(corner, wide))
        }
    }
}

/// Settles a component without an empty point and without a wide fact along the corners of its problem: values that
/// solve it, or multipliers that contradict it, in whose sums, as the checker makes them, no operation passes; or a corner
/// of the run and an operation that passes there. The scratch was made for the system's points.
pub fn settle_by_corners(
    alloc: Global,
    system: &System,
    component: &Component,
    scratch: &mut Scratch,
) -> Result<Cornered, Memory>
    requires component { IsComponent system.now component.now }
    requires none_empty { HasNoEmpty system.now component.now }
    requires none_wide { HasNoWide system.now component.now }
    requires sums { length scratch.old.sums ≡ system.now.points }
    requires stops { length scratch.old.stops ≡ system.now.points }
    ensures answer { IfOk result (IsCornered system.now component.now) }
    ensures sums { length scratch.new.sums ≡ length scratch.old.sums }
    ensures stops { length scratch.new.stops ≡ length scratch.old.stops }
    ensures marks { scratch.new.marks ≡ scratch.old.marks }
{
    solutions_are_values();
    let spans = spans(alloc, system, component.points.as_slice())?;
    let problem = problem(alloc, system, component, spans.as_slice())?;
    match solve(alloc, &problem)? {
        Outcome::Feasible(values) => {
            settle_by_values(alloc, system, component, &problem, values, scratch)
        }
        Outcome::Infeasible(multipliers) => {
            let refutation = problem_refutation(
                alloc,
                system,
                component,
                spans.as_slice(),
                &problem,
                &multipliers,
            )?;
            settle_by_refutation(alloc, system, component, &problem, refutation, scratch)
        }
        Outcome::TooWide(corner, wide) => Ok(Cornered::TooWide(corner, wide)),
    }
}
