// How values are judged.
ghost use Rattle.std.specs.Prelude.{◌≡◌, ◌<◌, ◌≤◌, All, length};
ghost use Rattle.xc_system.specs.Systems.{IsSystem, equation_at, range_at};
ghost use Rattle.xc_verify.specs.Feasible.{AreValuesMet, IsMetAtPoint, IsMetInside, equation_terms};
ghost use Rattle.xc_verify.specs.Objections.{IsFirstBelow, IsMetIn, IsNothing};
ghost use Rattle.xc_verify.specs.Sums.{IsSumOf};
ghost use Rattle.xc_verify.specs.declared.types.What.TheVariants.{Binding};

use crate::lines::interval_of;
use crate::sums::{objection_unless_zero, plus_product, zero};
use crate::types::{Objection, What};
use xc_frac::{Frac, Wide};
use xc_interval::Interval;
use xc_system::{Entry, System};

/// What is met first in values.
pub fn values_objection(system: &System, values: &[Frac]) -> Option<Objection>
    ensures met { AreValuesMet system.now values.now result }
    ensures system { IsSystem system.now }
{
    let points = system.points() as usize;
    if values.len() != points {
        let point = values.len().min(points) as u32;
        return Some(Objection::Misses(What::Point(point)));
    }
    if let Some(objection) = points_objection(system, values) {
        return Some(objection);
    }
    equations_objection(system, values)
}

// What is met first at the points.
fn points_objection(system: &System, values: &[Frac]) -> Option<Objection>
    requires { length values.now ≡ system.now.points }
    ensures { IsFirstBelow system.now.points (IsMetAtPoint system.now.bounds values.now) result }
{
    for point in 0..system.points() {
        if let Some(objection) = point_objection(system, point, values) {
            return Some(objection);
        }
    }
    None
}

// What is met first at the facts of a point.
fn point_objection(system: &System, point: u32, values: &[Frac]) -> Option<Objection>
    requires point { point < system.now.points }
    requires values { length values.now ≡ system.now.points }
    ensures { IsMetAtPoint system.now.bounds values.now point result }
{
    for fact in system.facts_of(point) {
        if let Some(objection) = interval_objection(
            *fact,
            interval_of(*fact, system.bounds()),
            point,
            values,
        ) {
            return Some(objection);
        }
    }
    None
}

// What is met at a fact with this interval.
fn interval_objection(
    fact: u32,
    interval: Option<Interval<Frac>>,
    point: u32,
    values: &[Frac],
) -> Option<Objection>
    requires { point < length values.now }
    ensures { IsMetInside fact values.now point interval result }
{
    match interval {
        None => Some(Objection::WideFact(fact)),
        Some(interval) => {
            if interval.contains(values[point as usize]) {
                return None;
            }
            Some(Objection::Misses(What::Point(point)))
        }
    }
}

// What is met first at the equations.
fn equations_objection(system: &System, values: &[Frac]) -> Option<Objection>
    requires { length values.now ≡ system.now.points }
    ensures { IsFirstBelow (length system.now.equations) (λ i met. IsMetIn (Binding i) IsNothing
        (equation_terms values.now (equation_at system.now.equations i).entries) met) result }
{
    for number in 0..system.equations().len() {
        if let Some(objection) = equation_objection(system, number as u32, values) {
            return Some(objection);
        }
    }
    None
}

// What is met at an equation.
fn equation_objection(system: &System, number: u32, values: &[Frac]) -> Option<Objection>
    requires number { number < length system.now.equations }
    requires values { length values.now ≡ system.now.points }
    ensures { IsMetIn (Binding number) IsNothing
        (equation_terms values.now (equation_at system.now.equations number).entries) result }
{
    objection_unless_zero(What::Binding(number), equation_sum(system, number, values))
}

/// The sum of an equation over these values: for each entry in order the product of weight and value is added; or the
/// first operation that passes 128 bits. There is a value for each point.
pub fn equation_sum(system: &System, number: u32, values: &[Frac]) -> Result<Frac, Wide>
    requires number { number < length system.now.equations }
    requires values { system.now.points ≤ length values.now }
    ensures { IsSumOf (equation_terms values.now (equation_at system.now.equations number).entries) result }
{
    sum_of(
        system.equations()[number as usize].entries.as_slice(),
        values,
    )
}

// The sum over the entries of weight times value.
fn sum_of(entries: &[Entry], values: &[Frac]) -> Result<Frac, Wide>
    requires { All (λ entry. entry.point < length values.now) entries.now }
    ensures { IsSumOf (equation_terms values.now entries.now) result }
{
    let mut sum = Ok(zero());
    for entry in entries {
        sum = plus_product(sum, entry.weight, values[entry.point as usize]);
    }
    sum
}
