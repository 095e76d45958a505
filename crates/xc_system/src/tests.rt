ghost use Rattle.std.specs.Prelude.{◌≡◌, ℕ, ◌<◌, ◌^◌, IsTrue, All, length};
ghost use Rattle.xc_system.specs.Systems.{HasBound};

use crate::types::{Bound, Entry, Equation};
use crate::{Refutation, Scratch, System, components, is_narrow_forest};
use std::alloc::Global;
use std::test::Fail;
use xc_frac::Frac;
use xc_interval::{End, Interval, Range};
use xc_lists::{Items, Memory};

// A fact: its point, and the numerators of the ends of its interval and their denominator, which is 0 for a wide
// fact and negative for an interval with open ends.
type Given = (u32, i128, i128, i128);

// An entry: the number of its equation, its point and its weight.
type Weighed = (u32, u32, i128);

// Systems, and what is said of them: for each component its points, its equations and whether it is a narrow forest,
// and for each point what its facts allow and which of them are the tightest.
#[test]
fn systems(rt: HostRuntime) -> Result<(), Fail> {
    let alloc = rt.alloc();
    let cases = [
        // a total of two contributors, of which one has two facts that meet
        (
            3,
            [
                (0, 990, 1010, 20),
                (0, 1007, 1009, 20),
                (1, 50, 50, 1),
                (2, 1999, 2001, 20),
            ]
            .as_slice(),
            [(0, 2, 1), (0, 0, -1), (0, 1, -1)].as_slice(),
            1,
            "[0, 1, 2] [0] true; meets 1 1; meets 2 2; meets 3 3; ",
        ),
        // two facts that do not meet
        (
            3,
            [
                (0, 99, 101, 2),
                (0, 103, 105, 2),
                (1, 99, 101, 2),
                (2, 199, 201, 2),
            ]
            .as_slice(),
            [(0, 2, 1), (0, 0, -1), (0, 1, -1)].as_slice(),
            1,
            "[0, 1, 2] [0] true; empty 1 0; meets 2 2; meets 3 3; ",
        ),
        // two totals of the same two contributors
        (
            4,
            [
                (0, 99, 101, 2),
                (1, 99, 101, 2),
                (2, 197, 199, 2),
                (3, 201, 203, 2),
            ]
            .as_slice(),
            [
                (0, 2, 1),
                (0, 0, -1),
                (0, 1, -1),
                (1, 3, 1),
                (1, 0, -1),
                (1, 1, -1),
            ]
            .as_slice(),
            2,
            "[0, 1, 2, 3] [0, 1] false; meets 0 0; meets 1 1; meets 2 2; meets 3 3; ",
        ),
        // a total that contributes to another
        (
            5,
            [
                (0, 99, 101, 2),
                (1, 97, 99, 2),
                (2, 99, 101, 2),
                (3, 3019, 3021, 20),
                (4, 199, 201, 2),
            ]
            .as_slice(),
            [
                (0, 3, 1),
                (0, 4, -1),
                (0, 2, -1),
                (1, 4, 1),
                (1, 0, -1),
                (1, 1, -1),
            ]
            .as_slice(),
            2,
            "[0, 1, 2, 3, 4] [0, 1] true; meets 0 0; meets 1 1; meets 2 2; meets 3 3; meets 4 4; ",
        ),
        // a point in no equation, and an equation of two others; nothing at all
        (
            3,
            [(1, 100, 100, 1), (0, 1, 2, 1), (2, 1, 2, 1)].as_slice(),
            [(0, 2, 1), (0, 0, -1)].as_slice(),
            1,
            "[0, 2] [0] true; [1] [] true; meets 1 1; meets 0 0; meets 2 2; ",
        ),
        (0, [].as_slice(), [].as_slice(), 0, ""),
        // a total that is its own contributor; weights of 1 and -1 at one point
        (
            1,
            [(0, 1, 2, 1)].as_slice(),
            [(0, 0, 1), (0, 0, -1)].as_slice(),
            1,
            "[0] [0] false; meets 0 0; ",
        ),
        (
            2,
            [(0, 1, 2, 1), (1, 0, 1, 1)].as_slice(),
            [(0, 1, 1), (0, 0, 1), (0, 0, -1)].as_slice(),
            1,
            "[0, 1] [0] false; meets 0 0; meets 1 1; ",
        ),
        // two equations of the same two points, and a weight of 2
        (
            2,
            [(0, 1, 2, 1), (1, 0, 1, 1)].as_slice(),
            [(0, 1, 1), (0, 0, -1), (1, 0, 1), (1, 1, -1)].as_slice(),
            2,
            "[0, 1] [0, 1] false; meets 0 0; meets 1 1; ",
        ),
        (
            2,
            [(0, 1, 2, 1), (1, 0, 1, 1)].as_slice(),
            [(0, 1, 1), (0, 0, -2)].as_slice(),
            1,
            "[0, 1] [0] false; meets 0 0; meets 1 1; ",
        ),
        // an equation without entries is of no component
        (
            1,
            [(0, 1, 2, 1)].as_slice(),
            [].as_slice(),
            1,
            "[0] [] true; meets 0 0; ",
        ),
        // the width of one point, 6 * D * (1 + M): the greatest that fits, over 1 and over 3, and the least that passes
        (
            1,
            [(0, 0, 14178431955039102644307275309657008809, 1)].as_slice(),
            [].as_slice(),
            0,
            "[0] [] true; meets 0 0; ",
        ),
        (
            1,
            [(0, 0, 14178431955039102644307275309657008810, 1)].as_slice(),
            [].as_slice(),
            0,
            "[0] [] false; meets 0 0; ",
        ),
        (
            1,
            [(0, 0, 14178431955039102644307275309657008807, 3)].as_slice(),
            [].as_slice(),
            0,
            "[0] [] true; meets 0 0; ",
        ),
        (
            1,
            [(0, 0, 14178431955039102644307275309657008808, 3)].as_slice(),
            [].as_slice(),
            0,
            "[0] [] false; meets 0 0; ",
        ),
        // both facts of a point count
        (
            1,
            [
                (0, 0, 1, 1),
                (0, 0, 14178431955039102644307275309657008808, 1),
            ]
            .as_slice(),
            [].as_slice(),
            0,
            "[0] [] true; meets 0 0; ",
        ),
        (
            1,
            [
                (0, 0, 2, 1),
                (0, 0, 14178431955039102644307275309657008808, 1),
            ]
            .as_slice(),
            [].as_slice(),
            0,
            "[0] [] false; meets 0 0; ",
        ),
        // a wide fact, equal ends and open ones
        (
            1,
            [(0, 1, 2, 1), (0, 1, 2, 0), (0, 1, 2, 0)].as_slice(),
            [].as_slice(),
            0,
            "[0] [] false; wide 1 1; ",
        ),
        (
            1,
            [
                (0, 1, 2, 1),
                (0, 1, 2, 1),
                (0, 1, 2, -1),
                (0, 1, 2, -1),
                (0, 1, 3, 1),
            ]
            .as_slice(),
            [].as_slice(),
            0,
            "[0] [] true; meets 2 2; ",
        ),
    ];
    for (points, facts, entries, equations, shown) in cases {
        let system = system_of(alloc, points, facts, entries, equations)?.ok_or("no system")?;
        assert_eq!(rt; description(alloc, &system)?.as_str(), shown);
    }
    Ok(())
}

// What is said of a system.
fn description(alloc: Global, system: &System) -> Result<String, Memory> {
    let mut text = String::new(alloc);
    let mut scratch = Scratch::new(alloc, system.points())?;
    let components = components(alloc, system)?;
    for component in components.as_slice() {
        let narrow = is_narrow_forest(system, component, &mut scratch);
        let points = component.points.as_slice();
        let equations = component.equations.as_slice();
        text.push_str(format!(in alloc; "{points:?} {equations:?} {narrow}; ")?.as_str())?;
    }
    for point in 0..system.points() {
        let spot = system.spot(point);
        text.push_str(kind(spot.range))?;
        let low = spot.low;
        let high = spot.high;
        text.push_str(format!(in alloc; " {low} {high}; ")?.as_str())?;
    }
    Ok(text)
}

fn kind(range: Range) -> &'static str {
    match range {
        Range::Meets(_) => "meets",
        Range::Empty => "empty",
        Range::Wide => "wide",
    }
}

// The system of these facts and entries, where it is one.
fn system_of(
    alloc: Global,
    points: u32,
    facts: &[Given],
    entries: &[Weighed],
    equations: u32,
) -> Result<Option<System>, Memory> {
    let mut bounds = Vec::new(alloc);
    for fact in facts {
        bounds.push(Bound {
            point: fact.0,
            range: interval_of(fact.1, fact.2, fact.3),
        })?;
    }
    let mut list = Vec::new(alloc);
    for number in 0..equations {
        list.push(equation_of(alloc, entries, number)?)?;
    }
    if !are_few(points, bounds.as_slice(), list.as_slice()) {
        return Ok(None);
    }
    if !are_bounds_named(points, bounds.as_slice()) {
        return Ok(None);
    }
    if !are_equations_named(points, list.as_slice()) {
        return Ok(None);
    }
    if !has_bounds(points, bounds.as_slice()) {
        return Ok(None);
    }
    Ok(Some(System::of(alloc, points, bounds, list)?))
}

fn are_few(points: u32, bounds: &[Bound], equations: &[Equation]) -> bool
    ensures { IsTrue result → (points < 2 ^ 31) × (length bounds.now < 2 ^ 31) × (length equations.now < 2 ^ 31) }
{
    points < 1 << 31 && bounds.len() < 1 << 31 && equations.len() < 1 << 31
}

fn are_bounds_named(points: u32, bounds: &[Bound]) -> bool
    ensures { IsTrue result → All (λ bound. bound.point < points) bounds.now }
{
    for bound in bounds {
        if bound.point >= points {
            return false;
        }
    }
    true
}

fn are_equations_named(points: u32, equations: &[Equation]) -> bool
    ensures { IsTrue result → All (λ equation. All (λ entry. entry.point < points) equation.entries) equations.now }
{
    for equation in equations {
        if !are_entries_named(points, equation.entries.as_slice()) {
            return false;
        }
    }
    true
}

fn are_entries_named(points: u32, entries: &[Entry]) -> bool
    ensures { IsTrue result → All (λ entry. entry.point < points) entries.now }
{
    for entry in entries {
        if entry.point >= points {
            return false;
        }
    }
    true
}

fn has_bounds(points: u32, bounds: &[Bound]) -> bool
    ensures { IsTrue result → (p : ℕ) → p < points → HasBound bounds.now p }
{
    for p in 0..points {
        if !has_bound(bounds, p) {
            return false;
        }
    }
    true
}

fn has_bound(bounds: &[Bound], p: u32) -> bool
    ensures { IsTrue result → HasBound bounds.now p }
{
    bounds.iter().any(|bound| bound.point == p)
}

fn equation_of(alloc: Global, entries: &[Weighed], number: u32) -> Result<Equation, Memory> {
    let mut list = Vec::new(alloc);
    for entry in entries {
        if entry.0 == number {
            if let Some(weight) = fraction(entry.2, 1) {
                list.push(Entry {
                    point: entry.1,
                    weight,
                })?;
            }
        }
    }
    Ok(Equation {
        entries: Items::of(list),
    })
}

fn interval_of(low: i128, high: i128, den: i128) -> Option<Interval<Frac>> {
    let low = fraction(low, den)?;
    let high = fraction(high, den)?;
    if den < 0 {
        let from = low.neg();
        let to = high.neg();
        return Some(Interval {
            low: End::Open(from),
            high: End::Open(to),
        });
    }
    Some(Interval {
        low: End::Closed(low),
        high: End::Closed(high),
    })
}

fn fraction(num: i128, den: i128) -> Option<Frac> {
    if num == i128::MIN || den == i128::MIN {
        return None;
    }
    Frac::of(num, den)
}

// A refutation lends its lists.
#[test]
fn refutation(rt: HostRuntime) -> Result<(), Fail> {
    let alloc = rt.alloc();
    let bindings = Vec::new(alloc);
    let lows = Vec::new(alloc);
    let highs = Vec::new(alloc);
    let made = Refutation::of(bindings, lows, highs);
    assert_eq!(rt; made.bindings().len(), 0);
    assert_eq!(rt; made.lows().len(), 0);
    assert_eq!(rt; made.highs().len(), 0);
    Ok(())
}
