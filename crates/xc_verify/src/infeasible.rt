// How a refutation is judged.
ghost use Rattle.std.specs.Prelude.{◌≡◌, ◌<◌, ◌≤◌, ℕ, List, length, option_map, option_to_list};
ghost use Rattle.std.specs.List.{list_any};
ghost use Rattle.xc_interval.specs.Ends.{is_open};
ghost use Rattle.xc_system.specs.Kept.{IsRefutation};
ghost use Rattle.xc_system.specs.Refutations.{lists_open};
ghost use Rattle.xc_system.specs.Systems.{IsSystem};
ghost use Rattle.xc_verify.specs.Infeasible.{FallsShort, IsRefutationMet, coefficient_terms, constant_terms, value_term, value_terms};
ghost use Rattle.xc_verify.specs.Objections.{IsFirstBelow, IsMetAt, IsMetIn, IsNothing};
ghost use Rattle.xc_verify.specs.Steps.Running.{is_open_on, sum_at};
ghost use Rattle.xc_verify.specs.Sums.{IsNext, IsSum, IsSumOf, Term};
ghost use Rattle.xc_verify.specs.declared.types.What.TheVariants.{Constant, Point};

use crate::lines::{interval_of, line_objection};
use crate::multiples::add_refutation;
use crate::scratch::sum_at;
use crate::sums::{minus_product, objection_unless_zero, plus_product, zero};
use crate::types::{Objection, What};
use xc_frac::{Frac, Wide};
use xc_interval::Interval;
use xc_system::{Bound, Refutation, Side, System};

/// What is met first in a refutation. The lists are room for the sums of points.
pub fn refutation_objection(
    system: &System,
    refutation: &Refutation,
    sums: &mut [Frac],
    stops: &mut [Option<Wide>],
) -> Option<Objection>
    requires sums { system.now.points ≤ length sums.old }
    requires stops { system.now.points ≤ length stops.old }
    ensures met { IsRefutationMet system.now refutation.now result }
    ensures system { IsSystem system.now }
    ensures kept { IsRefutation refutation.now }
{
    if let Some(objection) = line_objection(system, refutation) {
        return Some(objection);
    }
    add_refutation(system, refutation, sums, stops);
    if let Some(objection) = coefficients_objection(system, refutation, sums, stops) {
        return Some(objection);
    }
    constant_objection(system, refutation)
}

// What is met first at the points, whose coefficients these are.
fn coefficients_objection(
    system: &System,
    refutation: &Refutation,
    sums: &[Frac],
    stops: &[Option<Wide>],
) -> Option<Objection>
    requires sums { system.now.points ≤ length sums.now }
    requires stops { system.now.points ≤ length stops.now }
    requires added { (p : ℕ) → p < system.now.points
        → IsSumOf (coefficient_terms system.now refutation.now p) (sum_at sums.now stops.now p) }
    ensures { IsFirstBelow system.now.points (λ p met. IsMetIn (Point p) IsNothing
        (coefficient_terms system.now refutation.now p) met) result }
{
    // The multipliers have been added up: only the contract speaks of them.
    let _listed = refutation;
    for point in 0..system.points() {
        if let Some(objection) = coefficient_objection(point, sums, stops) {
            return Some(objection);
        }
    }
    None
}

// What is met at a point, whose coefficient this is.
fn coefficient_objection(point: u32, sums: &[Frac], stops: &[Option<Wide>]) -> Option<Objection>
    requires sums { point < length sums.now }
    requires stops { point < length stops.now }
    ensures { (terms : List Term) → IsSumOf terms (sum_at sums.now stops.now point)
        → IsMetIn (Point point) IsNothing terms result }
{
    objection_unless_zero(What::Point(point), sum_at(sums, stops, point))
}

// What is met at the constant.
fn constant_objection(system: &System, refutation: &Refutation) -> Option<Objection>
    ensures { IsMetIn Constant (FallsShort system.now refutation.now) (constant_terms system.now refutation.now) result }
{
    objection_unless_short(system, refutation, constant(system, refutation))
}

/// The constant of a refutation: the value of each listed end times its multiplier, taken away for a low end and added for
/// a high one, in order; or the first operation that passes 128 bits.
pub fn constant(system: &System, refutation: &Refutation) -> Result<Frac, Wide>
    ensures { IsSumOf (constant_terms system.now refutation.now) result }
{
    let lows = with_values(Side::Low, Ok(zero()), refutation.lows(), system.bounds());
    with_values(Side::High, lows, refutation.highs(), system.bounds())
}

// What is met at the end of the constant.
fn objection_unless_short(
    system: &System,
    refutation: &Refutation,
    sum: Result<Frac, Wide>,
) -> Option<Objection>
    ensures { IsMetAt Constant (FallsShort system.now refutation.now) sum result }
{
    match sum {
        Ok(sum) => {
            if sum.num() < 0 {
                return None;
            }
            if sum.num() == 0 && lists_open(system, refutation) {
                return None;
            }
            Some(Objection::Misses(What::Constant))
        }
        Err(wide) => Some(Objection::TooWide(What::Constant, wide)),
    }
}

// A sum with what the listed ends of one side add to the constant.
fn with_values(
    side: Side,
    start: Result<Frac, Wide>,
    lines: &[(u32, Frac)],
    bounds: &[Bound],
) -> Result<Frac, Wide>
    ensures { IsSum start (value_terms side bounds.now lines.now) result }
{
    let mut sum = start;
    for (fact, factor) in lines {
        sum = with_fact(side, sum, *factor, interval_of(*fact, bounds));
    }
    sum
}

// A sum with what one listed end adds.
fn with_fact(
    side: Side,
    sum: Result<Frac, Wide>,
    factor: Frac,
    interval: Option<Interval<Frac>>,
) -> Result<Frac, Wide>
    ensures { IsSum sum (option_to_list (option_map (value_term side factor) interval)) result }
{
    match interval {
        Some(interval) => with_value(side, sum, factor, interval),
        None => sum,
    }
}

// A sum with what one end of an interval adds.
fn with_value(
    side: Side,
    sum: Result<Frac, Wide>,
    factor: Frac,
    interval: Interval<Frac>,
) -> Result<Frac, Wide>
    ensures { IsNext sum (value_term side factor interval) result }
{
    match side {
        Side::Low => minus_product(sum, factor, interval.low.value()),
        Side::High => plus_product(sum, factor, interval.high.value()),
    }
}

// Whether a listed end is open.
fn lists_open(system: &System, refutation: &Refutation) -> bool
    ensures { result ≡ lists_open system.now refutation.now }
{
    if has_open(Side::Low, system, refutation.lows()) {
        return true;
    }
    has_open(Side::High, system, refutation.highs())
}

// Whether one of the listed ends of a side is open.
fn has_open(side: Side, system: &System, lines: &[(u32, Frac)]) -> bool
    ensures { result ≡ list_any (λ m. is_open_on side system.now m.0) lines.now }
{
    for (fact, _factor) in lines {
        if is_open(side, system, *fact) {
            return true;
        }
    }
    false
}

// Whether the end of a fact is open.
fn is_open(side: Side, system: &System, fact: u32) -> bool
    ensures { result ≡ is_open_on side system.now fact }
{
    match interval_of(fact, system.bounds()) {
        Some(interval) => is_end_open(side, interval),
        None => false,
    }
}

// Whether the end of an interval is open.
fn is_end_open(side: Side, interval: Interval<Frac>) -> bool
    ensures low { side ≡ Side.Low → result ≡ is_open interval.low }
    ensures high { side ≡ Side.High → result ≡ is_open interval.high }
{
    match side {
        Side::Low => interval.low.is_open(),
        Side::High => interval.high.is_open(),
    }
}
