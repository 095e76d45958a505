// The data points of a report's facts (Calculations 1.1: facts of one concept with equal dimensions).
ghost use Rattle.std.specs.Prelude.{◌≡◌, ◌++◌, ◌<◌, ◌≤◌, ◌^◌, All, IfOk, IfSome, length, map, option_map, option_to_list};
ghost use Rattle.xc_points.specs.Gathered.{ArePoints, group_of, groups};
ghost use Rattle.xc_interval.specs.Ranges.{IsRangeOf};
ghost use Rattle.xc_points.specs.Kept.{ends_of};
ghost use Rattle.xc_points.specs.Steps.Members.{group_at};

use crate::groups::{Members, members_of};
use crate::intervals::intervals_of;
use crate::ranges::range_of;
use crate::types::{Point, Points};
use std::alloc::Global;
use xc_frac::Frac;
use xc_interval::{Interval, Mode};
use xc_lists::Memory;
use xc_report::{Fact, Report};

/// The data points of a report's facts, by first fact: each with exactly its facts, and with what all of them
/// allow in this mode; and the interval of each fact.
///
/// A fact is wide where its value is, where its decimals pass 37 in magnitude, or where an operation for an end of
/// its interval passes 128 bits. A point is wide where one of its facts is. One that is not is empty where no number
/// is allowed by all its facts (Calculations 1.1).
pub fn points(alloc: Global, report: &Report, mode: Mode) -> Result<Points, Memory>
    requires { length report.now.facts < 2 ^ 31 }
    ensures points { IfOk result (λ r. ArePoints mode report.now.facts r) }
    ensures few { IfOk result (λ r. length r.points ≤ length report.now.facts) }
{
    let facts = report.facts.as_slice();
    let ends = intervals_of(alloc, facts, mode)?;
    let points = points_of(alloc, facts, ends.as_slice())?;
    Ok(Points::of(points, ends))
}

// The points with the ranges that these intervals of the facts give.
fn points_of(
    alloc: Global,
    facts: &[Fact],
    ends: &[Option<Interval<Frac>>],
) -> Result<Vec<Point>, Memory>
    requires few { length facts.now < 2 ^ 31 }
    requires ends { length ends.now ≡ length facts.now }
    ensures groups { IfOk result (λ points. map group_of points.items ≡ groups facts.now) }
    ensures ranges { IfOk result (λ points.
        All (λ point. IsRangeOf (ends_of ends.now point.facts) point.range) points.items) }
{
    let mut points = Vec::new(alloc);
    for members in members_of(alloc, facts)? {
        keep(&mut points, point_of(facts, ends, members))?;
    }
    Ok(points)
}

// Puts a point last, if there is one.
fn keep(points: &mut Vec<Point>, next: Option<Point>) -> Result<(), Memory>
    ensures { IfOk result (λ _. points.new.items ≡ points.old.items ++ option_to_list next) }
{
    if let Some(point) = next {
        points.push(point)?;
    }
    Ok(())
}

// The point that has these facts, if there are any.
fn point_of(facts: &[Fact], ends: &[Option<Interval<Frac>>], members: Members) -> Option<Point>
    requires ends { length ends.now ≡ length facts.now }
    requires members { All (λ f. f < length facts.now) members }
    ensures group { option_map group_of result ≡ group_at facts.now members }
    ensures range { IfSome result (λ point. IsRangeOf (ends_of ends.now point.facts) point.range) }
{
    let Some((first, others)) = members.as_slice().split_first() else {
        return None;
    };
    let fact = &facts[*first as usize];
    let range = range_of(*first, others, ends);
    Some(Point {
        concept: fact.concept,
        key: fact.key,
        facts: members.into_items(),
        range,
    })
}
