// The system of a report.
ghost use Rattle.std.specs.Prelude.{◌≡◌, ℕ, ◌<◌, ◌^◌, All, IfOk, IsTrue, ◌==◌, length, map, slice_index, true, false};
ghost use Rattle.std.specs.List.{AllZip, list_any, zip};
ghost use Rattle.xc_bind.specs.Placed.{IsPlaced};
ghost use Rattle.xc_bind.specs.Steps.Owners.{AreOwners, bound_with};
ghost use Rattle.xc_bind.specs.Systems.{IsEquationOf, IsSystemOf, IsTermEntry};
ghost use Rattle.xc_points.specs.Kept.{AreKept};

use crate::types::{Binding, Term};
use std::alloc::Global;
use xc_frac::{Frac, Scalar};
use xc_interval::Interval;
use xc_lists::{Items, Memory};
use xc_points::Points;
use xc_system::{Bound, Entry, Equation, System};

/// The system of a report: for each fact a bound with its interval and the number of its data point, and for each
/// binding an equation, in which the total has the weight 1 and each term minus its own.
pub fn system(alloc: Global, points: &Points, bindings: &[Binding]) -> Result<System, Memory>
    requires placed { All (IsPlaced points.now.points) bindings.now }
    requires few_points { length points.now.points < 2 ^ 31 }
    requires few_facts { length points.now.ends < 2 ^ 31 }
    requires few_bindings { length bindings.now < 2 ^ 31 }
    ensures { IfOk result (IsSystemOf points.now bindings.now) }
{
    let list = points.as_slice();
    let owners = owners(alloc, points)?;
    let bounds = bounds(alloc, owners.as_slice(), points.ends())?;
    let equations = equations(alloc, bindings)?;
    System::of(alloc, list.len() as u32, bounds, equations)
}

// For each fact the number of its point.
fn owners(alloc: Global, points: &Points) -> Result<Vec<u32>, Memory>
    requires { length points.now.points < 2 ^ 31 }
    ensures { IfOk result (λ owners. AreOwners points.now owners.items) }
{
    let mut owners = Vec::new(alloc);
    for _fact in 0..points.ends().len() {
        owners.push(0)?;
    }
    let all = owners.as_mut_slice();
    for (number, point) in points.as_slice().iter().enumerate() {
        set_owner(all, point.facts.as_slice(), number as u32);
    }
    Ok(owners)
}

// Gives these facts this number.
fn set_owner(owners: &mut [u32], facts: &[u32], number: u32)
    requires { All (λ f. f < length owners.old) facts.now }
    ensures own { (f : ℕ) → IsTrue (list_any (λ g. g == f) facts.now) → slice_index owners.new f ≡ number }
    ensures others { (f : ℕ) → list_any (λ g. g == f) facts.now ≡ false
        → slice_index owners.new f ≡ slice_index owners.old f }
{
    for fact in facts {
        owners[*fact as usize] = number;
    }
}

// The bounds of facts with these points and these intervals.
fn bounds(
    alloc: Global,
    owners: &[u32],
    ends: &[Option<Interval<Frac>>],
) -> Result<Vec<Bound>, Memory>
    requires { length owners.now ≡ length ends.now }
    ensures { IfOk result (λ bounds. bounds.items ≡ map bound_with (zip owners.now ends.now)) }
{
    let mut bounds = Vec::new(alloc);
    for fact in 0..ends.len() {
        bounds.push(Bound {
            point: owners[fact],
            range: ends[fact],
        })?;
    }
    Ok(bounds)
}

// An equation for each binding.
fn equations(alloc: Global, bindings: &[Binding]) -> Result<Vec<Equation>, Memory>
    ensures { IfOk result (λ equations. AllZip IsEquationOf bindings.now equations.items) }
{
    let mut equations = Vec::new(alloc);
    for binding in bindings {
        equations.push(equation_of(alloc, binding)?)?;
    }
    Ok(equations)
}

// The equation of a binding.
fn equation_of(alloc: Global, binding: &Binding) -> Result<Equation, Memory>
    ensures { IfOk result (IsEquationOf binding.now) }
{
    let mut entries = Vec::new(alloc);
    entries.push(Entry {
        point: binding.total,
        weight: Frac::one(),
    })?;
    for term in binding.terms.as_slice() {
        entries.push(entry_of(*term))?;
    }
    Ok(Equation {
        entries: Items::of(entries),
    })
}

// The entry of a term.
fn entry_of(term: Term) -> Entry
    ensures { IsTermEntry term result }
{
    Entry {
        point: term.point,
        weight: term.weight.to_frac().neg(),
    }
}
