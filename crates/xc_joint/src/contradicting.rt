// The refutation of a component by multipliers that contradict its problem.
ghost use Rattle.std.specs.Prelude.{◌≡◌, ◌<◌, IfOk, All, length, map};
ghost use Rattle.std.specs.List.Sorted.{IsNonDecreasingBy, IsPermutation};
ghost use Rattle.xc_corners.specs.Answers.{Contradicts};
ghost use Rattle.xc_joint.specs.CornerCauses.{line_with_number};
ghost use Rattle.xc_joint.specs.Steps.ProblemRefutations.{IsRefutationBy, high_facts, low_facts};
ghost use Rattle.xc_joint.specs.Steps.SpanProblems.{IsProblemBy};
ghost use Rattle.xc_system.specs.Components.{IsComponent};
ghost use Rattle.xc_system.specs.Refutations.{IsContradictionOf};

use crate::one_forest::Span;
use std::alloc::Global;
use xc_corners::{Multipliers, Problem};
use xc_frac::Frac;
use xc_lists::Memory;
use xc_system::{Component, Refutation, System};

/// The refutation of a component by multipliers that contradict its problem, whose points these facts bound: each
/// row stands for its equation, and each end for the fact that it is of.
pub(crate) fn problem_refutation(
    alloc: Global,
    system: &System,
    component: &Component,
    spans: &[Span],
    problem: &Problem,
    multipliers: &Multipliers,
) -> Result<Refutation, Memory>
    requires component { IsComponent system.now component.now }
    requires problem { IsProblemBy system.now component.now spans.now problem.now }
    requires contradicts { Contradicts problem.now multipliers.now }
    ensures contradicts { IfOk result (IsContradictionOf system.now component.now) }
    ensures lists { IfOk result (IsRefutationBy component.now spans.now multipliers.now) }
{
    let _system = system;
    let _problem = problem;
    let low_facts = low_facts(alloc, spans)?;
    let high_facts = high_facts(alloc, spans)?;
    let bindings = lines_with_numbers(
        alloc,
        component.equations.as_slice(),
        multipliers.rows.as_slice(),
    )?;
    let lows = lines_with_numbers(alloc, low_facts.as_slice(), multipliers.lows.as_slice())?;
    let highs = lines_with_numbers(alloc, high_facts.as_slice(), multipliers.highs.as_slice())?;
    Ok(Refutation::of(bindings, lines_in_order(lows), lines_in_order(highs)))
}

// The facts with the tightest low ends.
fn low_facts(alloc: Global, spans: &[Span]) -> Result<Vec<u32>, Memory>
    ensures { IfOk result (λ facts. facts.items ≡ low_facts spans.now) }
{
    let mut facts = Vec::new(alloc);
    for span in spans {
        facts.push(span.low)?;
    }
    Ok(facts)
}

// The facts with the tightest high ends.
fn high_facts(alloc: Global, spans: &[Span]) -> Result<Vec<u32>, Memory>
    ensures { IfOk result (λ facts. facts.items ≡ high_facts spans.now) }
{
    let mut facts = Vec::new(alloc);
    for span in spans {
        facts.push(span.high)?;
    }
    Ok(facts)
}

// The lines with the numbers that stand at their places, in place of the places.
fn lines_with_numbers(
    alloc: Global,
    numbers: &[u32],
    lines: &[(u32, Frac)],
) -> Result<Vec<(u32, Frac)>, Memory>
    requires { All (λ line. line.0 < length numbers.now) lines.now }
    ensures { IfOk result (λ made. made.items ≡ map (line_with_number numbers.now) lines.now) }
{
    let mut made = Vec::new(alloc);
    for line in lines {
        made.push((numbers[line.0 as usize], line.1))?;
    }
    Ok(made)
}

// The lines in the order of their numbers.
fn lines_in_order(mut lines: Vec<(u32, Frac)>) -> Vec<(u32, Frac)>
    ensures lists { IsPermutation lines.items result.items }
    ensures ascend { IsNonDecreasingBy (λ line. line.0) result.items }
{
    sort_lines(lines.as_mut_slice());
    lines
}

// Sorts the lines by their numbers.
fn sort_lines(lines: &mut [(u32, Frac)])
    ensures lists { IsPermutation lines.old lines.new }
    ensures ascend { IsNonDecreasingBy (λ line. line.0) lines.new }
{
    lines.sort_unstable_by_key(|line| line.0);
}
