// Narrow forests.
ghost use Rattle.std.specs.Prelude.{◌≡◌, ℕ, ◌+◌, ◌*◌, ◌<◌, ◌≤◌, ◌^◌, ◌↔◌, IsTrue, IsSome, IfSome, IfNone, All, length, sum_by};
ghost use Rattle.xc_interval.specs.Scales.{IsMultipleOf, IsNoneBelow, saturated};
ghost use Rattle.xc_system.specs.Components.{IsComponent};
ghost use Rattle.xc_system.specs.Forests.{EachFact, IsNarrow, IsNarrowForest, IsUnit};
ghost use Rattle.xc_system.specs.Steps.Measured.{AreOver, ArePointsOver, IsOver, reach_at, entries_of};
ghost use Rattle.xc_system.specs.Systems.{IsSystem, equation_at, facts_of, range_at};

use crate::scratch::Scratch;
use crate::spots::interval_of;
use crate::systems::System;
use crate::types::{Bound, Component, Entry, Equation};
use xc_frac::Frac;
use xc_interval::laws::saturated_sums;

/// Whether a component of the system is a narrow forest: it has no cycle, no equation has a point twice, all
/// weights are 1 or -1, no fact is wide, and its numbers leave room for their sums.
///
/// It is so told by counting: points and equations that are linked make no cycle exactly where the equations
/// have one entry less than there are points and equations. So nothing is written into the scratch.
pub fn is_narrow_forest(system: &System, component: &Component, scratch: &mut Scratch) -> bool
    requires { IsComponent system.now component.now }
    ensures is { IsTrue result ↔ IsNarrowForest system.now component.now }
    ensures scratch { scratch.new ≡ scratch.old }
{
    let _untouched = scratch;
    if !has_no_cycle(component, system) {
        return false;
    }
    if !have_unit_weights(component, system) {
        return false;
    }
    is_narrow(component, system)
}

// Whether linked points and equations make no cycle, and no equation has a point twice, by the number of entries.
fn has_no_cycle(component: &Component, system: &System) -> bool
    requires { All (λ i. i < length system.now.equations) component.now.equations }
    ensures is { IsTrue result ↔ (entries_of system.now.equations component.now.equations + 1
        ≡ length component.now.points + length component.now.equations) }
    ensures system { IsSystem system.now }
{
    let points = component.points.as_slice().len() as u128;
    let equations = component.equations.as_slice();
    entries_in(equations, system.equations()) + 1 == points + equations.len() as u128
}

// How many entries these equations have.
fn entries_in(numbers: &[u32], equations: &[Equation]) -> u128
    requires { All (λ i. i < length equations.now) numbers.now }
    ensures is { result ≡ entries_of equations.now numbers.now }
    ensures few { result + 1 < 2 ^ 128 }
{
    let mut entries = 0u128;
    for number in numbers {
        entries += length_of(*number, equations);
    }
    entries
}

// How many entries an equation has.
fn length_of(number: u32, equations: &[Equation]) -> u128
    requires { number < length equations.now }
    ensures is { result ≡ length (equation_at equations.now number).entries }
    ensures few { result < 2 ^ 63 }
{
    equations[number as usize].entries.as_slice().len() as u128
}

// Whether all weights are 1 or -1.
fn have_unit_weights(component: &Component, system: &System) -> bool
    requires { All (λ i. i < length system.now.equations) component.now.equations }
    ensures { IsTrue result ↔ All (λ i. All (λ entry. IsUnit entry.weight) (equation_at system.now.equations i).entries) component.now.equations }
{
    for number in component.equations.as_slice() {
        if !has_unit_weights(*number, system.equations()) {
            return false;
        }
    }
    true
}

// Whether all weights of an equation are 1 or -1.
fn has_unit_weights(number: u32, equations: &[Equation]) -> bool
    requires { number < length equations.now }
    ensures { IsTrue result ↔ All (λ entry. IsUnit entry.weight) (equation_at equations.now number).entries }
{
    are_units(equations[number as usize].entries.as_slice())
}

// Whether all weights of these entries are 1 or -1.
fn are_units(entries: &[Entry]) -> bool
    ensures { IsTrue result ↔ All (λ entry. IsUnit entry.weight) entries.now }
{
    for entry in entries {
        if !is_unit(entry.weight) {
            return false;
        }
    }
    true
}

// Whether a weight is 1 or -1.
fn is_unit(weight: Frac) -> bool
    ensures { IsTrue result ↔ IsUnit weight }
{
    weight.den() == 1 && (weight.num() == 1 || weight.num() == -1)
}

// Whether no fact of these points is wide, and their numbers leave room.
fn is_narrow(component: &Component, system: &System) -> bool
    requires { All (λ p. p < system.now.points) component.now.points }
    ensures { IsTrue result ↔ (EachFact system.now component.now (λ k. IsSome (range_at system.now.bounds k)) × IsNarrow system.now component.now) }
{
    let points = component.points.as_slice();
    let Some(scale) = common_scale(points, system) else {
        return false;
    };
    leaves_room(points.len(), scale, total_reach(points, system, scale))
}

// The least common multiple of the denominators of all ends of all facts of these points; None where a fact is
// wide, or where that is 2^128 or more.
fn common_scale(points: &[u32], system: &System) -> Option<u128>
    requires { All (λ p. p < system.now.points) points.now }
    ensures some { IfSome result (IsMultipleOf 1 (ArePointsOver system.now.bounds points.now)) }
    ensures none { IfNone result (IsNoneBelow 1 (ArePointsOver system.now.bounds points.now)) }
{
    let mut scale = 1u128;
    for point in points {
        let Some(next) = scale_with(system.facts_of(*point), system.bounds(), scale) else {
            return None;
        };
        scale = next;
    }
    Some(scale)
}

// The least common multiple of a number and the denominators of all ends of these facts; None where a fact is
// wide, or where that is 2^128 or more.
fn scale_with(facts: &[u32], bounds: &[Bound], scale: u128) -> Option<u128>
    requires inside { All (λ k. k < length bounds.now) facts.now }
    requires positive { 0 < scale }
    ensures some { IfSome result (IsMultipleOf scale (AreOver bounds.now facts.now)) }
    ensures none { IfNone result (IsNoneBelow scale (AreOver bounds.now facts.now)) }
{
    let mut so_far = scale;
    for fact in facts {
        let Some(next) = scale_with_fact(*fact, bounds, so_far) else {
            return None;
        };
        so_far = next;
    }
    Some(so_far)
}

// The same for one fact.
fn scale_with_fact(fact: u32, bounds: &[Bound], scale: u128) -> Option<u128>
    requires inside { fact < length bounds.now }
    requires positive { 0 < scale }
    ensures some { IfSome result (IsMultipleOf scale (IsOver bounds.now fact)) }
    ensures none { IfNone result (IsNoneBelow scale (IsOver bounds.now fact)) }
{
    match interval_of(fact, bounds) {
        Some(interval) => interval.common_scale(scale),
        None => None,
    }
}

// The sum over all facts of these points of the greater magnitude of their ends over a common denominator, as
// far as 128 bits go.
fn total_reach(points: &[u32], system: &System, scale: u128) -> u128
    requires { All (λ p. p < system.now.points) points.now }
    ensures { result ≡ saturated (sum_by (λ p. sum_by (reach_at system.now.bounds scale) (facts_of system.now.bounds p)) points.now) }
{
    saturated_sums();
    let mut total = 0u128;
    for point in points {
        total = total.saturating_add(reach(system.facts_of(*point), system.bounds(), scale));
    }
    total
}

// The same over these facts.
fn reach(facts: &[u32], bounds: &[Bound], scale: u128) -> u128
    requires { All (λ k. k < length bounds.now) facts.now }
    ensures { result ≡ saturated (sum_by (reach_at bounds.now scale) facts.now) }
{
    saturated_sums();
    let mut total = 0u128;
    for fact in facts {
        total = total.saturating_add(reach_of_fact(*fact, bounds, scale));
    }
    total
}

// The same for one fact.
fn reach_of_fact(fact: u32, bounds: &[Bound], scale: u128) -> u128
    requires { fact < length bounds.now }
    ensures { result ≡ saturated (reach_at bounds.now scale fact) }
{
    match interval_of(fact, bounds) {
        Some(interval) => interval.greatest(scale),
        None => 0,
    }
}

// Whether these numbers leave room for sums: (2n + 4) * (scale + reach) is at most 2^126.
fn leaves_room(points: usize, scale: u128, reach: u128) -> bool
    ensures { (exact : ℕ) → reach ≡ saturated exact
        → IsTrue result ↔ ((2 * points + 4) * (scale + exact) ≤ 2 ^ 126) }
{
    saturated_sums();
    times_for(points).saturating_mul(scale.saturating_add(reach)) <= 1 << 126
}

// How many times the numbers of this many points have to fit.
fn times_for(points: usize) -> u128
    ensures { result ≡ 2 * points + 4 }
{
    2 * points as u128 + 4
}
