// The problem of a component: for each point the range between its tightest ends, and for each equation a row.
ghost use Rattle.std.specs.Prelude.{◌<◌, ◌^◌, IfOk, All, length};
ghost use Rattle.std.specs.List.Sorted.{IsStrictlySortedBy};
ghost use Rattle.std.specs.Ordering.{nat_cmp};
ghost use Rattle.xc_corners.specs.Problems.{IsProblem, IsSmallProblem};
ghost use Rattle.xc_joint.specs.ComponentProblems.{IsProblemOf, IsWeightedPlace, IsWeightedRow};
ghost use Rattle.xc_joint.specs.Lists.{AreEach};
ghost use Rattle.xc_joint.specs.Steps.OneForest.{IsSpanOf};
ghost use Rattle.xc_joint.specs.Steps.SpanProblems.{IsProblemBy};
ghost use Rattle.xc_lists.specs.Members.{IsIn};
ghost use Rattle.xc_system.specs.Components.{IsComponent};
ghost use Rattle.xc_system.specs.Systems.{equation_at};

use crate::one_forest::{Span, place_of, ranges};
use std::alloc::Global;
use xc_corners::Problem;
use xc_frac::Frac;
use xc_interval::laws::ends_tell;
use xc_lists::{Items, Memory};
use xc_system::laws::{components_are_closed, equations_name_points};
use xc_system::{Component, Entry, System};

/// The problem of a component whose points these facts bound. It can be solved: no range is empty, each row names
/// ranges, and there are few enough of both.
pub(crate) fn problem(
    alloc: Global,
    system: &System,
    component: &Component,
    spans: &[Span],
) -> Result<Problem, Memory>
    requires component { IsComponent system.now component.now }
    requires spans { AreEach (IsSpanOf system.now) component.now.points spans.now }
    ensures of { IfOk result (IsProblemOf system.now component.now) }
    ensures by_spans { IfOk result (IsProblemBy system.now component.now spans.now) }
    ensures can_be_solved { IfOk result IsProblem }
    ensures small { IfOk result IsSmallProblem }
{
    ends_tell();
    components_are_closed();
    equations_name_points();
    let _points = system.points();
    let ranges = ranges(alloc, system, spans)?;
    let rows = weighted_rows(alloc, system, component)?;
    Ok(Problem {
        ranges: Items::of(ranges),
        rows: Items::of(rows),
    })
}

// A row for each equation of the component.
fn weighted_rows(
    alloc: Global,
    system: &System,
    component: &Component,
) -> Result<Vec<Items<(u32, Frac)>>, Memory>
    requires few { length component.now.points < 2 ^ 31 }
    requires ascend { IsStrictlySortedBy nat_cmp component.now.points }
    requires inside { All (λ i. i < length system.now.equations) component.now.equations }
    requires own { All (λ i. All (λ entry. IsIn entry.point component.now.points) (equation_at system.now.equations i).entries) component.now.equations }
    ensures { IfOk result (λ rows. AreEach (IsWeightedRow system.now component.now.points) component.now.equations rows.items) }
{
    let mut rows = Vec::new(alloc);
    for number in component.equations.as_slice() {
        let row = weighted_row(alloc, system, component.points.as_slice(), *number)?;
        rows.push(row)?;
    }
    Ok(rows)
}

// The row of an equation.
fn weighted_row(
    alloc: Global,
    system: &System,
    points: &[u32],
    number: u32,
) -> Result<Items<(u32, Frac)>, Memory>
    requires few { length points.now < 2 ^ 31 }
    requires ascend { IsStrictlySortedBy nat_cmp points.now }
    requires inside { number < length system.now.equations }
    requires own { All (λ entry. IsIn entry.point points.now) (equation_at system.now.equations number).entries }
    ensures { IfOk result (IsWeightedRow system.now points.now number) }
{
    weighted_places(
        alloc,
        points,
        system.equations()[number as usize].entries.as_slice(),
    )
}

// The places of the points of these entries, with their weights.
fn weighted_places(
    alloc: Global,
    points: &[u32],
    entries: &[Entry],
) -> Result<Items<(u32, Frac)>, Memory>
    requires few { length points.now < 2 ^ 31 }
    requires ascend { IsStrictlySortedBy nat_cmp points.now }
    requires own { All (λ entry. IsIn entry.point points.now) entries.now }
    ensures { IfOk result (AreEach (IsWeightedPlace points.now) entries.now) }
{
    let mut places = Vec::new(alloc);
    for entry in entries {
        places.push((place_of(points, entry.point), entry.weight))?;
    }
    Ok(Items::of(places))
}
