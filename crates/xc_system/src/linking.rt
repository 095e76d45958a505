// The components of a system.
ghost use Rattle.std.specs.Prelude.{◌≡◌, ◌<◌, ◌^◌, All, IfOk, length, map};
ghost use Rattle.std.specs.List.{zip};
ghost use Rattle.xc_system.specs.Components.{AreComponents};
ghost use Rattle.xc_system.specs.Steps.Owned.{component_of, owner_of};
ghost use Rattle.xc_system.specs.Systems.{Constraints};

use crate::grouping::places_by_number;
use crate::roots::{numbers, roots};
use crate::systems::System;
use crate::types::{Component, Equation};
use std::alloc::Global;
use xc_lists::{Items, Memory};

/// The components of a system: points that equations link, with these equations. Every point is in one of
/// them, and they are numbered by their least points.
pub fn components(alloc: Global, system: &System) -> Result<Vec<Component>, Memory>
    ensures { IfOk result (λ components. AreComponents system.now components.items) }
{
    components_of(alloc, system.points(), system.equations())
}

// The components of as many points and these equations.
fn components_of(
    alloc: Global,
    points: u32,
    equations: &[Equation],
) -> Result<Vec<Component>, Memory>
    requires named { All (λ equation. All (λ entry. entry.point < points) equation.entries) equations.now }
    requires few { length equations.now < 2 ^ 32 }
    ensures { (s : Constraints) → s.points ≡ points → s.equations ≡ equations.now
        → IfOk result (λ components. AreComponents s components.items) }
{
    let up = roots(alloc, points, equations)?;
    let (numbers, count) = numbers(alloc, up.as_slice())?;
    let owners = owners(alloc, equations, numbers.as_slice(), count)?;
    let points = places_by_number(alloc, numbers.as_slice(), count)?;
    let equations = places_by_number(alloc, owners.as_slice(), count)?;
    pair_with_equations(alloc, points, equations)
}

// For each equation the number of its first point; this one where it has none.
fn owners(
    alloc: Global,
    equations: &[Equation],
    numbers: &[u32],
    none: u32,
) -> Result<Vec<u32>, Memory>
    requires { All (λ equation. All (λ entry. entry.point < length numbers.now) equation.entries) equations.now }
    ensures { IfOk result (λ owners. owners.items ≡ map (owner_of numbers.now none) equations.now) }
{
    let mut owners = Vec::new(alloc);
    for equation in equations {
        owners.push(owner_of(equation, numbers, none))?;
    }
    Ok(owners)
}

// The number of its first point; this one where it has none.
fn owner_of(equation: &Equation, numbers: &[u32], none: u32) -> u32
    requires { All (λ entry. entry.point < length numbers.now) equation.now.entries }
    ensures { result ≡ owner_of numbers.now none equation.now }
{
    match equation.entries.as_slice() {
        [first, ..] => numbers[first.point as usize],
        [] => none,
    }
}

// Points with equations, one by one.
fn pair_with_equations(
    alloc: Global,
    points: Vec<Items<u32>>,
    equations: Vec<Items<u32>>,
) -> Result<Vec<Component>, Memory>
    ensures { IfOk result (λ components. components.items ≡ map component_of (zip points.items equations.items)) }
{
    let mut components = Vec::new(alloc);
    let mut rest = equations.into_iter();
    for points in points {
        let Some(equations) = rest.next() else {
            return Ok(components);
        };
        components.push(Component { points, equations })?;
    }
    Ok(components)
}
