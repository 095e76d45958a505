// Systems, with the facts of each point at hand.
ghost use Rattle.std.specs.Prelude.{◌≡◌, ◌≢◌, ◌<◌, ◌^◌, [], All, IfOk, length, map};
ghost use Rattle.xc_system.specs.Spots.{IsSpot};
ghost use Rattle.xc_system.specs.Steps.Indexed.{IsIndexOf};
ghost use Rattle.xc_system.specs.Systems.{IsSystem, IsSmall, facts_of};

use crate::grouping::places_by_number;
use crate::spots::spot_of;
use crate::types::{Bound, Equation, Spot};
use std::alloc::Global;
use std::marker::Model;
use xc_lists::{Items, Memory};

/// Bounds and equations over data points: a bound for each fact, and an equation for each binding. Every
/// point has a bound, and every bound and every entry names a point.
#[derive(Debug, Drop)]
pub struct System {
    points: u32,
    bounds: Vec<Bound>,
    equations: Vec<Equation>,
    facts: Vec<Items<u32>>,
}

impl Model for System {
    ghost use Rattle.xc_system.specs.Systems.{Constraints};

    ghost Value = { Constraints };

    ghost use Rattle.xc_system.specs.Steps.Indexed.{IsIndexed};

    ghost view = { λ s. record { points = s.points; bounds = s.bounds.items; equations = s.equations.items } };

    ghost invariant = { λ s. IsIndexed (record { points = s.points; bounds = s.bounds.items; equations = s.equations.items }) s.facts.items };
}

impl System {
    /// The system of these. Every bound and every entry names a point, every point has a bound, and there are
    /// fewer than 2^31 of each.
    pub fn of(
        alloc: Global,
        points: u32,
        bounds: Vec<Bound>,
        equations: Vec<Equation>,
    ) -> Result<System, Memory>
        requires system { IsSystem (record { points = points; bounds = bounds.items; equations = equations.items }) }
        requires small { IsSmall (record { points = points; bounds = bounds.items; equations = equations.items }) }
        ensures { IfOk result (λ s. s ≡ record { points = points; bounds = bounds.items; equations = equations.items }) }
    {
        let facts = facts_by_point(alloc, points, bounds.as_slice())?;
        Ok(System {
            points,
            bounds,
            equations,
            facts,
        })
    }

    /// How many points there are.
    pub fn points(&self) -> u32
        ensures is { result ≡ self.now.points }
        ensures system { IsSystem self.now }
        ensures small { IsSmall self.now }
    {
        self.points
    }

    /// A bound for each fact.
    pub fn bounds(&self) -> &[Bound]
        ensures is { result.now ≡ self.now.bounds }
        ensures system { IsSystem self.now }
        ensures small { IsSmall self.now }
    {
        self.bounds.as_slice()
    }

    /// An equation for each binding.
    pub fn equations(&self) -> &[Equation]
        ensures is { result.now ≡ self.now.equations }
        ensures system { IsSystem self.now }
        ensures small { IsSmall self.now }
    {
        self.equations.as_slice()
    }

    /// The facts of a point, ascending; there is one at least. They are at hand and not sought.
    pub fn facts_of(&self, point: u32) -> &[u32]
        requires { point < self.now.points }
        ensures is { result.now ≡ facts_of self.now.bounds point }
        ensures known { All (λ fact. fact < length self.now.bounds) result.now }
        ensures some { result.now ≢ [] }
    {
        self.facts[point as usize].as_slice()
    }

    /// What all facts of a point allow, and which of them are the tightest. The facts of this point alone are
    /// gone through.
    pub fn spot(&self, point: u32) -> Spot
        requires { point < self.now.points }
        ensures { IsSpot self.now.bounds point result }
    {
        match self.facts_of(point) {
            [first, others @ ..] => spot_of(*first, others, self.bounds.as_slice()),
            [] => unreachable!(),
        }
    }
}

// For each point its facts.
fn facts_by_point(alloc: Global, points: u32, bounds: &[Bound]) -> Result<Vec<Items<u32>>, Memory>
    requires { length bounds.now < 2 ^ 31 }
    ensures { IfOk result (λ facts. IsIndexOf facts.items points bounds.now) }
{
    places_by_number(alloc, points_of_bounds(alloc, bounds)?.as_slice(), points)
}

// The point of each bound.
fn points_of_bounds(alloc: Global, bounds: &[Bound]) -> Result<Vec<u32>, Memory>
    ensures { IfOk result (λ points. points.items ≡ map (λ bound. bound.point) bounds.now) }
{
    let mut points = Vec::new(alloc);
    for bound in bounds {
        points.push(bound.point)?;
    }
    Ok(points)
}
