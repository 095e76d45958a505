// The refutation that multipliers of the forest of a component give.
ghost use Rattle.std.specs.Prelude.{◌≡◌, ◌<◌, ◌^◌, IfOk, length, pos, slice_index_or};
ghost use Rattle.std.specs.List.Sorted.{IsPermutation, IsSorted};
ghost use Rattle.std.specs.Ordering.{nat_cmp};
ghost use Rattle.xc_joint.specs.Steps.Multiplied.{IsContradicted, IsListed, IsSigned, named_bindings, named_high_facts, is_minus, is_nonzero, is_plus, named_low_facts};
ghost use Rattle.xc_joint.specs.Steps.UnitSums.{HasUnits};
ghost use Rattle.xc_system.specs.Refutations.{IsContradictionOf};
ghost use Rattle.xc_joint.specs.Lists.{AreEach};
ghost use Rattle.xc_joint.specs.Steps.OneForest.{IsSign};

use crate::one_forest::Span;
use std::alloc::Global;
use xc_forest::laws::sums_are_over;
use xc_frac::{Frac, ratio};
use xc_lists::Memory;
use xc_system::{Component, Refutation, System};

/// The refutation by multipliers that contradict the forest of a component: each equation is multiplied by 1 or -1, and
/// each end by 1.
pub(crate) fn refutation(
    alloc: Global,
    system: &System,
    component: &Component,
    spans: &[Span],
    by: &[i8],
    ends: &[i8],
) -> Result<Refutation, Memory>
    requires { IsContradicted system.now component.now spans.now by.now ends.now }
    ensures contradicts { IfOk result (IsContradictionOf system.now component.now) }
    ensures units { IfOk result HasUnits }
{
    sums_are_over();
    let _system = system;
    let low_facts = sorted_low_facts(alloc, spans, ends)?;
    let high_facts = sorted_high_facts(alloc, spans, ends)?;
    let equations = named_bindings(alloc, component.equations.as_slice(), by)?;
    let lows = fact_lines(alloc, low_facts.as_slice())?;
    let highs = fact_lines(alloc, high_facts.as_slice())?;
    let bindings = binding_lines(alloc, equations.as_slice())?;
    Ok(Refutation::of(bindings, lows, highs))
}

// The facts whose low ends are named, ascending.
fn sorted_low_facts(alloc: Global, spans: &[Span], ends: &[i8]) -> Result<Vec<u32>, Memory>
    requires { length ends.now ≡ length spans.now }
    ensures lists { IfOk result (λ facts. IsPermutation (named_low_facts spans.now ends.now) facts.items) }
    ensures ascend { IfOk result (λ facts. IsSorted nat_cmp facts.items) }
{
    let mut facts = named_low_facts(alloc, spans, ends)?;
    facts.as_mut_slice().sort_unstable();
    Ok(facts)
}

// These facts in the order of the points.
fn named_low_facts(alloc: Global, spans: &[Span], ends: &[i8]) -> Result<Vec<u32>, Memory>
    requires { length ends.now ≡ length spans.now }
    ensures { IfOk result (λ facts. facts.items ≡ named_low_facts spans.now ends.now) }
{
    let mut facts = Vec::new(alloc);
    for (number, span) in spans.iter().enumerate() {
        if is_low(ends, number) {
            facts.push(span.low)?;
        }
    }
    Ok(facts)
}

// The facts whose high ends are named, ascending.
fn sorted_high_facts(alloc: Global, spans: &[Span], ends: &[i8]) -> Result<Vec<u32>, Memory>
    requires { length ends.now ≡ length spans.now }
    ensures lists { IfOk result (λ facts. IsPermutation (named_high_facts spans.now ends.now) facts.items) }
    ensures ascend { IfOk result (λ facts. IsSorted nat_cmp facts.items) }
{
    let mut facts = named_high_facts(alloc, spans, ends)?;
    facts.as_mut_slice().sort_unstable();
    Ok(facts)
}

// These facts in the order of the points.
fn named_high_facts(alloc: Global, spans: &[Span], ends: &[i8]) -> Result<Vec<u32>, Memory>
    requires { length ends.now ≡ length spans.now }
    ensures { IfOk result (λ facts. facts.items ≡ named_high_facts spans.now ends.now) }
{
    let mut facts = Vec::new(alloc);
    for (number, span) in spans.iter().enumerate() {
        if is_high(ends, number) {
            facts.push(span.high)?;
        }
    }
    Ok(facts)
}

// Whether a multiplier names a low end.
fn is_low(multipliers: &[i8], number: usize) -> bool
    requires { number < length multipliers.now }
    ensures { result ≡ is_plus (slice_index_or multipliers.now number (pos 0)) }
{
    multipliers[number] > 0
}

// Whether a multiplier names a high end.
fn is_high(multipliers: &[i8], number: usize) -> bool
    requires { number < length multipliers.now }
    ensures { result ≡ is_minus (slice_index_or multipliers.now number (pos 0)) }
{
    multipliers[number] < 0
}

// Whether a multiplier counts.
fn counts(multipliers: &[i8], number: usize) -> bool
    requires { number < length multipliers.now }
    ensures { result ≡ is_nonzero (slice_index_or multipliers.now number (pos 0)) }
{
    multipliers[number] != 0
}

// The facts, each with 1.
fn fact_lines(alloc: Global, facts: &[u32]) -> Result<Vec<(u32, Frac)>, Memory>
    ensures { IfOk result (λ listed. AreEach IsListed facts.now listed.items) }
{
    let mut listed = Vec::new(alloc);
    for fact in facts {
        listed.push((*fact, unit(false)))?;
    }
    Ok(listed)
}

// The equations that count, each with true for a minus sign.
fn named_bindings(alloc: Global, equations: &[u32], by: &[i8]) -> Result<Vec<(u32, bool)>, Memory>
    requires { length by.now ≡ length equations.now }
    ensures { IfOk result (λ bindings. bindings.items ≡ named_bindings equations.now by.now) }
{
    let mut bindings = Vec::new(alloc);
    for (number, equation) in equations.iter().enumerate() {
        if counts(by, number) {
            bindings.push((*equation, is_high(by, number)))?;
        }
    }
    Ok(bindings)
}

// The same with 1 and -1.
fn binding_lines(alloc: Global, bindings: &[(u32, bool)]) -> Result<Vec<(u32, Frac)>, Memory>
    ensures { IfOk result (λ listed. AreEach IsSigned bindings.now listed.items) }
{
    let mut listed = Vec::new(alloc);
    for binding in bindings {
        listed.push((binding.0, unit(binding.1)))?;
    }
    Ok(listed)
}

// 1, or -1 for a minus sign.
fn unit(minus: bool) -> Frac
    ensures { IsSign minus result }
{
    if minus { ratio(-1, 1) } else { ratio(1, 1) }
}
