// What a refutation names.
ghost use Rattle.std.specs.Prelude.{◌≡◌};
ghost use Rattle.xc_lists.specs.Places.{first_given};
ghost use Rattle.xc_system.specs.Kept.{IsRefutation};
ghost use Rattle.xc_system.specs.Systems.{IsSystem, range_at};
ghost use Rattle.xc_verify.specs.Infeasible.{binding_objection, fact_objection, line_objection};

use crate::types::{Objection, What};
use xc_frac::Frac;
use xc_interval::Interval;
use xc_system::{Bound, Equation, Refutation, System};

/// What is met first at the lines of a refutation, in order: a binding or a fact that the system does not have, or a
/// fact that is wide.
pub fn line_objection(system: &System, refutation: &Refutation) -> Option<Objection>
    ensures met { result ≡ line_objection system.now refutation.now }
    ensures system { IsSystem system.now }
    ensures kept { IsRefutation refutation.now }
{
    if let Some(objection) = first_binding_objection(refutation.bindings(), system.equations()) {
        return Some(objection);
    }
    if let Some(objection) = first_fact_objection(refutation.lows(), system.bounds()) {
        return Some(objection);
    }
    first_fact_objection(refutation.highs(), system.bounds())
}

// The first binding that the system does not have.
fn first_binding_objection(lines: &[(u32, Frac)], equations: &[Equation]) -> Option<Objection>
    ensures { result ≡ first_given (λ m. binding_objection equations.now m.0) lines.now }
{
    for (number, _factor) in lines {
        if let Some(objection) = binding_objection(*number, equations) {
            return Some(objection);
        }
    }
    None
}

// Whether a binding is one that the system does not have.
fn binding_objection(number: u32, equations: &[Equation]) -> Option<Objection>
    ensures { result ≡ binding_objection equations.now number }
{
    match equations.get(number as usize) {
        Some(_equation) => None,
        None => Some(Objection::Misses(What::Binding(number))),
    }
}

// What is met first at these facts.
fn first_fact_objection(lines: &[(u32, Frac)], bounds: &[Bound]) -> Option<Objection>
    ensures { result ≡ first_given (λ m. fact_objection bounds.now m.0) lines.now }
{
    for (fact, _factor) in lines {
        if let Some(objection) = fact_objection(*fact, bounds) {
            return Some(objection);
        }
    }
    None
}

// What is met at a fact.
fn fact_objection(fact: u32, bounds: &[Bound]) -> Option<Objection>
    ensures { result ≡ fact_objection bounds.now fact }
{
    let Some(bound) = bounds.get(fact as usize) else {
        return Some(Objection::Misses(What::Fact(fact)));
    };
    match bound.range {
        Some(_interval) => None,
        None => Some(Objection::WideFact(fact)),
    }
}

/// The interval of a fact; None where it is wide, or none of the system.
pub fn interval_of(fact: u32, bounds: &[Bound]) -> Option<Interval<Frac>>
    ensures { result ≡ range_at bounds.now fact }
{
    match bounds.get(fact as usize) {
        Some(bound) => bound.range,
        None => None,
    }
}
