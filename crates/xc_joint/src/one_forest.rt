// The forest of a component: for each point the tightest ends of its facts, and for each equation a row.
ghost use Rattle.std.specs.Prelude.{◌≡◌, ◌<◌, ◌^◌, IfOk, IsSome, Some, All, length, slice_index};
ghost use Rattle.std.specs.List.Sorted.{IsStrictlySortedBy};
ghost use Rattle.std.specs.Ordering.{nat_cmp};
ghost use Rattle.xc_joint.specs.Lists.{AreEach};
ghost use Rattle.xc_joint.specs.Steps.OneForest.{AreRowsOf, HasSome, IsBounded, IsRangeOf, IsRowOf, IsSolved, IsSign, IsSignedPlace, IsSpanOf};
ghost use Rattle.xc_system.specs.Components.{IsComponent};
ghost use Rattle.xc_system.specs.Forests.{IsNarrowForest, IsUnit};
ghost use Rattle.xc_lists.specs.Members.{IsIn};
ghost use Rattle.xc_system.specs.Systems.{IsSmall, IsSystem, equation_at, range_at};

use crate::small::Halt;
use crate::solving::{Solution, solve};
use std::alloc::Global;
use xc_frac::Frac;
use xc_interval::Interval;
use xc_interval::laws::{ends_tell, ranges_have_numbers};
use xc_lists::{Items, Memory};
use xc_system::laws::{components_are_closed, equations_name_points};
use xc_system::{Component, Entry, System};

/// The facts of a point that bound it.
#[derive(Clone, Copy, Debug)]
pub(crate) struct Span {
    /// The first fact whose low end is the tightest.
    pub(crate) low: u32,
    /// The first fact whose high end is the tightest.
    pub(crate) high: u32,
}

/// Solves a component that is a narrow forest and whose points have these ranges, or contradicts it: numbers and
/// multipliers are those of its points and equations by their places.
pub(crate) fn solve_forest(
    alloc: Global,
    system: &System,
    component: &Component,
    ranges: &[Interval<Frac>],
) -> Result<Solution, Memory>
    requires system { IsSystem system.now }
    requires small { IsSmall system.now }
    requires component { IsComponent system.now component.now }
    requires narrow { IsNarrowForest system.now component.now }
    requires ranges { AreEach (IsBounded system.now) component.now.points ranges.now }
    ensures { IfOk result (IsSolved system.now component.now ranges.now) }
{
    ends_tell();
    components_are_closed();
    equations_name_points();
    let rows = rows(alloc, system, component)?;
    match solve(alloc, ranges, Items::of(rows)) {
        Ok(solution) => Ok(solution),
        Err(Halt::Memory) => Err(Memory),
        Err(Halt::Wide(_)) => unreachable!(),
    }
}

/// The facts that bound these points, none of which has a wide fact or is empty.
pub(crate) fn spans(alloc: Global, system: &System, points: &[u32]) -> Result<Vec<Span>, Memory>
    requires { All (HasSome system.now) points.now }
    ensures { IfOk result (λ spans. AreEach (IsSpanOf system.now) points.now spans.items) }
{
    let mut spans = Vec::new(alloc);
    for point in points {
        spans.push(span_of(system, *point))?;
    }
    Ok(spans)
}

// The facts that bound a point.
fn span_of(system: &System, point: u32) -> Span
    requires { HasSome system.now point }
    ensures { IsSpanOf system.now point result }
{
    ranges_have_numbers();
    let spot = system.spot(point);
    Span {
        low: spot.low,
        high: spot.high,
    }
}

/// The ranges between these ends.
pub(crate) fn ranges(
    alloc: Global,
    system: &System,
    spans: &[Span],
) -> Result<Vec<Interval<Frac>>, Memory>
    requires { All (λ span. IsSome (range_at system.now.bounds span.low) × IsSome (range_at system.now.bounds span.high)) spans.now }
    ensures { IfOk result (λ ranges. AreEach (IsRangeOf system.now) spans.now ranges.items) }
{
    let mut ranges = Vec::new(alloc);
    for span in spans {
        ranges.push(Interval {
            low: interval_of(system, span.low).low,
            high: interval_of(system, span.high).high,
        })?;
    }
    Ok(ranges)
}

// The interval of a fact that is not wide.
fn interval_of(system: &System, fact: u32) -> Interval<Frac>
    requires { IsSome (range_at system.now.bounds fact) }
    ensures { range_at system.now.bounds fact ≡ Some result }
{
    system.bounds()[fact as usize].range.unwrap()
}

// A row for each equation of the component.
fn rows(
    alloc: Global,
    system: &System,
    component: &Component,
) -> Result<Vec<Items<(u32, bool)>>, Memory>
    requires few { length component.now.points < 2 ^ 31 }
    requires ascend { IsStrictlySortedBy nat_cmp component.now.points }
    requires inside { All (λ i. i < length system.now.equations) component.now.equations }
    requires own { All (λ i. All (λ entry. IsIn entry.point component.now.points) (equation_at system.now.equations i).entries) component.now.equations }
    requires units { All (λ i. All (λ entry. IsUnit entry.weight) (equation_at system.now.equations i).entries) component.now.equations }
    ensures { IfOk result (λ rows. AreRowsOf system.now component.now rows.items) }
{
    let mut rows = Vec::new(alloc);
    for number in component.equations.as_slice() {
        let row = row_of(alloc, system, component.points.as_slice(), *number)?;
        rows.push(row)?;
    }
    Ok(rows)
}

// The row of an equation.
fn row_of(
    alloc: Global,
    system: &System,
    points: &[u32],
    number: u32,
) -> Result<Items<(u32, bool)>, Memory>
    requires few { length points.now < 2 ^ 31 }
    requires ascend { IsStrictlySortedBy nat_cmp points.now }
    requires inside { number < length system.now.equations }
    requires own { All (λ entry. IsIn entry.point points.now) (equation_at system.now.equations number).entries }
    requires units { All (λ entry. IsUnit entry.weight) (equation_at system.now.equations number).entries }
    ensures { IfOk result (IsRowOf system.now points.now number) }
{
    signed_places(
        alloc,
        points,
        system.equations()[number as usize].entries.as_slice(),
    )
}

// The places of the points of these entries, with their signs.
fn signed_places(
    alloc: Global,
    points: &[u32],
    entries: &[Entry],
) -> Result<Items<(u32, bool)>, Memory>
    requires few { length points.now < 2 ^ 31 }
    requires ascend { IsStrictlySortedBy nat_cmp points.now }
    requires own { All (λ entry. IsIn entry.point points.now) entries.now }
    requires units { All (λ entry. IsUnit entry.weight) entries.now }
    ensures { IfOk result (AreEach (IsSignedPlace points.now) entries.now) }
{
    let mut places = Vec::new(alloc);
    for entry in entries {
        places.push((place_of(points, entry.point), has_minus_sign(entry.weight)))?;
    }
    Ok(Items::of(places))
}

/// Where a point stands among the points of its component.
pub(crate) fn place_of(points: &[u32], point: u32) -> u32
    requires few { length points.now < 2 ^ 31 }
    requires ascend { IsStrictlySortedBy nat_cmp points.now }
    requires there { IsIn point points.now }
    ensures inside { result < length points.now }
    ensures there { slice_index points.now result ≡ point }
{
    match points.binary_search(&point) {
        Ok(place) => place as u32,
        Err(_) => unreachable!(),
    }
}

// Whether a weight, 1 or -1, is -1.
fn has_minus_sign(weight: Frac) -> bool
    requires { IsUnit weight }
    ensures { IsSign result weight }
{
    weight.num() == -1
}
