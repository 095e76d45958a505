// One component that is a narrow forest.
ghost use Rattle.std.specs.Prelude.{IfOk};
ghost use Rattle.xc_joint.specs.Causes.{HasNoEmpty, HasNoWide};
ghost use Rattle.xc_joint.specs.Steps.Settling.{IsSettlement};
ghost use Rattle.xc_system.specs.Components.{IsComponent};
ghost use Rattle.xc_system.specs.Forests.{IsNarrowForest};

use crate::laws::{numbers_are_values, numbers_have_sums, unit_refutations_sum};
use crate::one_forest::{ranges, solve_forest, spans};
use crate::refuting::refutation;
use crate::solving::Solution;
use std::alloc::Global;
use xc_frac::Frac;
use xc_lists::{Items, Memory};
use xc_system::{Component, Refutation, System};

/// What becomes of a narrow forest.
#[derive(Debug, Drop)]
pub enum Settlement {
    /// A value for each of its points in order, by which it is solved.
    Values(Items<Frac>),
    /// Multipliers that contradict it.
    Refuted(Refutation),
}

/// Settles a narrow forest that has no empty point and no wide fact. No operation passes, nor does one in the sums by
/// which the checker judges what is answered.
pub fn settle_forest(
    alloc: Global,
    system: &System,
    component: &Component,
) -> Result<Settlement, Memory>
    requires component { IsComponent system.now component.now }
    requires none_empty { HasNoEmpty system.now component.now }
    requires none_wide { HasNoWide system.now component.now }
    requires forest { IsNarrowForest system.now component.now }
    ensures { IfOk result (IsSettlement system.now component.now) }
{
    numbers_are_values();
    numbers_have_sums();
    unit_refutations_sum();
    let _points = system.points();
    let spans = spans(alloc, system, component.points.as_slice())?;
    let ranges = ranges(alloc, system, spans.as_slice())?;
    match solve_forest(alloc, system, component, ranges.as_slice())? {
        Solution::Numbers(values) => Ok(Settlement::Values(values)),
        Solution::Contradiction { rows, ends } => {
            let refutation = refutation(
                alloc,
                system,
                component,
                spans.as_slice(),
                rows.as_slice(),
                ends.as_slice(),
            )?;
            Ok(Settlement::Refuted(refutation))
        }
    }
}
