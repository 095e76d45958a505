// The joint question over all components.
ghost use Rattle.std.specs.Prelude.{◌≡◌, ℕ, ◌<◌, All, IfOk, length, slice_get};
ghost use Rattle.std.specs.List.Sorted.{IsStrictlySortedBy};
ghost use Rattle.std.specs.Ordering.{nat_cmp};
ghost use Rattle.xc_joint.specs.Answers.{IsAnswer};
ghost use Rattle.xc_joint.specs.Causes.{HasNoEmpty, HasNoWide, IsOther};
ghost use Rattle.xc_joint.specs.Lists.{AreAmong};
ghost use Rattle.xc_joint.specs.Steps.Settling.{IsFound};
ghost use Rattle.xc_system.specs.Components.{AreComponents, IsComponent};
ghost use Rattle.xc_system.specs.Forests.{IsNarrowForest};
ghost use Rattle.xc_lists.specs.Members.{IsIn};

use crate::by_corners::{Cornered, settle_by_corners};
use crate::empties::{Ended, first_empty, refute_empty};
use crate::forests::{Settlement, settle_forest};
use crate::types::{Cause, Joint, Part};
use crate::wides::least_wide;
use std::alloc::Global;
use xc_frac::{Exact, Frac};
use xc_lists::{Items, Memory};
use xc_system::laws::{components_are_closed, components_decide, links_are_equivalences};
use xc_system::{
    Certificate, Component, Refutation, Scratch, System, components, is_narrow_forest,
};
use xc_verify::laws::proofs_are_accepted;

/// Whether one value for each point satisfies all facts and all equations.
pub fn settle(alloc: Global, system: &System) -> Result<Joint, Memory>
    ensures { IfOk result (IsAnswer system.now) }
{
    let components = components(alloc, system)?;
    let mut scratch = Scratch::new(alloc, system.points())?;
    gather(alloc, system, components.as_slice(), &mut scratch)
}

/// What is found of one component.
#[derive(Debug, Drop)]
pub enum Found {
    /// A value for each of its points in order, by which it is solved.
    Values(Items<Frac>),
    /// Multipliers that contradict it.
    Refuted(Refutation),
    /// Why there is no answer.
    Wide(Cause),
}

// What is found of a component.
fn settle_one(
    alloc: Global,
    system: &System,
    component: &Component,
    scratch: &mut Scratch,
) -> Result<Found, Memory>
    requires component { IsComponent system.now component.now }
    requires sums { length scratch.old.sums ≡ system.now.points }
    requires stops { length scratch.old.stops ≡ system.now.points }
    ensures found { IfOk result (IsFound system.now component.now) }
    ensures sums { length scratch.new.sums ≡ length scratch.old.sums }
    ensures stops { length scratch.new.stops ≡ length scratch.old.stops }
{
    if let Some(found) = first_empty(system, component) {
        return match refute_empty(alloc, system, component, found)? {
            Ended::Refuted(refutation) => Ok(Found::Refuted(refutation)),
            Ended::Passes(wide) => Ok(Found::Wide(Cause::Ends(found.low, found.high, wide))),
        };
    }
    if let Some(fact) = least_wide(system, component) {
        return Ok(Found::Wide(Cause::Fact(fact)));
    }
    settle_known(alloc, system, component, scratch)
}

// What is found of a component without an empty point and without a wide fact.
fn settle_known(
    alloc: Global,
    system: &System,
    component: &Component,
    scratch: &mut Scratch,
) -> Result<Found, Memory>
    requires component { IsComponent system.now component.now }
    requires none_empty { HasNoEmpty system.now component.now }
    requires none_wide { HasNoWide system.now component.now }
    requires sums { length scratch.old.sums ≡ system.now.points }
    requires stops { length scratch.old.stops ≡ system.now.points }
    ensures found { IfOk result (IsFound system.now component.now) }
    ensures sums { length scratch.new.sums ≡ length scratch.old.sums }
    ensures stops { length scratch.new.stops ≡ length scratch.old.stops }
{
    if is_narrow_forest(system, component, scratch) {
        return settle_narrow(alloc, system, component);
    }
    settle_other(alloc, system, component, scratch)
}

// What is found of a narrow forest.
fn settle_narrow(alloc: Global, system: &System, component: &Component) -> Result<Found, Memory>
    requires component { IsComponent system.now component.now }
    requires none_empty { HasNoEmpty system.now component.now }
    requires none_wide { HasNoWide system.now component.now }
    requires forest { IsNarrowForest system.now component.now }
    ensures { IfOk result (IsFound system.now component.now) }
{
    match settle_forest(alloc, system, component)? {
        Settlement::Values(values) => Ok(Found::Values(values)),
        Settlement::Refuted(refutation) => Ok(Found::Refuted(refutation)),
    }
}

// What is found of a component that is no narrow forest.
fn settle_other(
    alloc: Global,
    system: &System,
    component: &Component,
    scratch: &mut Scratch,
) -> Result<Found, Memory>
    requires component { IsComponent system.now component.now }
    requires other { IsOther system.now component.now }
    requires sums { length scratch.old.sums ≡ system.now.points }
    requires stops { length scratch.old.stops ≡ system.now.points }
    ensures found { IfOk result (IsFound system.now component.now) }
    ensures sums { length scratch.new.sums ≡ length scratch.old.sums }
    ensures stops { length scratch.new.stops ≡ length scratch.old.stops }
{
    match settle_by_corners(alloc, system, component, scratch)? {
        Cornered::Values(values) => Ok(Found::Values(values)),
        Cornered::Refuted(refutation) => Ok(Found::Refuted(refutation)),
        Cornered::TooWide(corner, wide) => Ok(Found::Wide(Cause::Corner(corner, wide))),
    }
}

// The answer, from what is found of each component.
fn gather(
    alloc: Global,
    system: &System,
    components: &[Component],
    scratch: &mut Scratch,
) -> Result<Joint, Memory>
    requires components { AreComponents system.now components.now }
    requires sums { length scratch.old.sums ≡ system.now.points }
    requires stops { length scratch.old.stops ≡ system.now.points }
    ensures { IfOk result (IsAnswer system.now) }
{
    components_are_closed();
    components_decide();
    links_are_equivalences();
    proofs_are_accepted();
    let mut all = zero_values(alloc, system.points())?;
    let mut parts = Vec::new(alloc);
    let mut caused = false;
    for component in components {
        match settle_one(alloc, system, component, scratch)? {
            Found::Refuted(refutation) => {
                return Ok(Joint::Settled(Certificate::Infeasible(refutation)));
            }
            Found::Values(values) => {
                put_values(
                    all.as_mut_slice(),
                    component.points.as_slice(),
                    values.as_slice(),
                );
                parts.push(Part::Values(values))?;
            }
            Found::Wide(cause) => {
                caused = true;
                parts.push(Part::Wide(cause))?;
            }
        }
    }
    if caused {
        return Ok(Joint::TooWide(Items::of(parts)));
    }
    Ok(Joint::Settled(Certificate::Feasible(Items::of(all))))
}

// As many numbers 0.
fn zero_values(alloc: Global, points: u32) -> Result<Vec<Frac>, Memory>
    ensures { IfOk result (λ zeros. length zeros.items ≡ points) }
{
    let mut zeros = Vec::new(alloc);
    for _point in 0..points {
        zeros.push(Frac::zero())?;
    }
    Ok(zeros)
}

/// Writes the values of these points among those of all points.
pub(crate) fn put_values(all: &mut [Frac], points: &[u32], values: &[Frac])
    requires inside { All (λ p. p < length all.old) points.now }
    requires each { length values.now ≡ length points.now }
    requires ascend { IsStrictlySortedBy nat_cmp points.now }
    ensures length { length all.new ≡ length all.old }
    ensures among { AreAmong points.now values.now all.new }
    ensures kept { (p : ℕ) → ¬ IsIn p points.now → slice_get all.new p ≡ slice_get all.old p }
{
    for (number, point) in points.iter().enumerate() {
        all[*point as usize] = values[number];
    }
}
