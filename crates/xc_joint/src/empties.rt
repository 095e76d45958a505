// Points that no value satisfies.
ghost use Rattle.std.specs.Prelude.{◌≡◌, ◌<◌, IfNone, IfOk, IfSome, pos};
ghost use Rattle.xc_joint.specs.Causes.{HasNoEmpty, IsEmptyPoint, IsOfFirstEmpty, ListsEnds};
ghost use Rattle.xc_joint.specs.Steps.Empties.{IsEmptyAt, IsEnded, IsFirstFound};
ghost use Rattle.xc_system.specs.Components.{IsComponent};

use std::alloc::Global;
use xc_frac::laws::{lowest_terms, numbers_are_ordered};
use xc_frac::{Frac, Scalar, Wide};
use xc_interval::Range;
use xc_interval::laws::{ends_tell, one_range, tighter_ends};
use xc_lists::Memory;
use xc_system::laws::components_are_closed;
use xc_system::{Component, Refutation, System};
use xc_verify::constant;
use xc_verify::laws::one_sum;

/// A point that no value satisfies, and the facts of its tightest ends, which exclude one another.
#[derive(Clone, Copy)]
pub struct EmptyPoint {
    pub point: u32,
    pub low: u32,
    pub high: u32,
}

/// The first empty point of a component.
pub fn first_empty(system: &System, component: &Component) -> Option<EmptyPoint>
    requires { IsComponent system.now component.now }
    ensures some { IfSome result (IsFirstFound system.now component.now) }
    ensures none { IfNone result (HasNoEmpty system.now component.now) }
{
    components_are_closed();
    for point in component.points.as_slice() {
        if let Some(found) = empty_at(system, *point) {
            return Some(found);
        }
    }
    None
}

// Whether a point is empty.
fn empty_at(system: &System, point: u32) -> Option<EmptyPoint>
    requires { point < system.now.points }
    ensures some { IfSome result (IsEmptyAt system.now point) }
    ensures none { IfNone result (¬ IsEmptyPoint system.now point) }
{
    one_range();
    let spot = system.spot(point);
    match spot.range {
        Range::Empty => Some(EmptyPoint {
            point,
            low: spot.low,
            high: spot.high,
        }),
        Range::Meets(_) => None,
        Range::Wide => None,
    }
}

/// What becomes of a component with an empty point.
#[derive(Drop)]
pub enum Ended {
    /// Multipliers that contradict it.
    Refuted(Refutation),
    /// An operation of their constant passes 128 bits.
    Passes(Wide),
}

/// The refutation of a component by its first empty point, unless an operation of its constant passes 128 bits.
pub fn refute_empty(
    alloc: Global,
    system: &System,
    component: &Component,
    found: EmptyPoint,
) -> Result<Ended, Memory>
    requires component { IsComponent system.now component.now }
    requires found { IsFirstFound system.now component.now found }
    ensures { IfOk result (IsEnded system.now component.now found) }
{
    lowest_terms();
    numbers_are_ordered();
    ends_tell();
    tighter_ends();
    one_sum();
    let _of = component;
    let refutation = ends_refutation(alloc, found.low, found.high)?;
    match constant(system, &refutation) {
        Ok(_) => Ok(Ended::Refuted(refutation)),
        Err(wide) => Ok(Ended::Passes(wide)),
    }
}

/// The refutation by the two ends of an empty point, each with 1.
pub fn ends_refutation(alloc: Global, low: u32, high: u32) -> Result<Refutation, Memory>
    ensures { IfOk result (λ refutation. ListsEnds refutation low high) }
{
    let factor = one();
    let bindings = Vec::new(alloc);
    let mut lows = Vec::new(alloc);
    lows.push((low, factor))?;
    let mut highs = Vec::new(alloc);
    highs.push((high, factor))?;
    Ok(Refutation::of(bindings, lows, highs))
}

// The number 1.
fn one() -> Frac
    ensures num { result.num ≡ pos 1 }
    ensures den { result.den ≡ pos 1 }
{
    lowest_terms();
    Frac::one()
}
