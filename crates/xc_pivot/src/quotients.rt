// The quotients at a feasible corner: what the small number has to be less than.
ghost use Rattle.std.specs.Prelude.{◌≡◌, ◌↔◌, ◌+◌, ◌*◌, ◌<◌, not, ℕ, Bool, IsTrue, IfOk, IfErr, OnOk, length};
ghost use Rattle.xc_corners.specs.Corners.{Corner, Factors, value};
ghost use Rattle.xc_corners.specs.Operations.{passed_bound};
ghost use Rattle.xc_corners.specs.Problems.{IsProblem, IsSmallProblem};
ghost use Rattle.xc_corners.specs.WholeNumbers.{whole_problem};
ghost use Rattle.xc_model.specs.Fraction.{IsBelow};
ghost use Rattle.xc_model.specs.Ratio.{fraction_of};
ghost use Rattle.xc_pivot.specs.Deltas.{of_part, ArePartsOf};
ghost use Rattle.xc_pivot.specs.Quotients.{mixed_parts, ExceedsEach, IsAnswerOf, MarginsStay, PassesMargins, IsAnswerAt, QuotientStays, PassesQuotient, IsLesser, IsLeastOf, SeenStay, PassesSmall, with_seen, below_seen};
ghost use Rattle.xc_pivot.specs.States.{IsShaped, IsAt};

use crate::bounds::{high_of, low_of};
use crate::deltas::difference;
use crate::types::{Place, State};
use std::cmp::Ordering;
use xc_corners::Problem;
use xc_corners::laws::{problems_are_whole, values_at_corners};
use xc_frac::{Delta, Frac, Wide};

/// The value of a variable.
pub fn value_of(problem: &Problem, state: &State, variable: u32) -> Delta<Frac>
    requires problem { IsProblem problem.now }
    requires shaped { IsShaped problem.now state.now }
    requires variable { variable < length state.now.places.items }
    ensures value { (x : Corner) (t : Factors) → IsAt problem.now state.now x t
        → ArePartsOf (t.over * (whole_problem problem.now).unit) (value (whole_problem problem.now) x t variable) result }
{
    values_at_corners();
    match state.places[variable as usize] {
        Place::Row(row) => state.values[row as usize],
        Place::Low(_) => low_of(problem, variable),
        Place::High(_) => high_of(problem, variable),
    }
}

// Its low bound (false), or its high one.
fn limit_of(problem: &Problem, high: bool, variable: u32) -> Delta<Frac>
    requires problem { IsProblem problem.now }
    ensures limit { ArePartsOf (whole_problem problem.now).unit (passed_bound (whole_problem problem.now) high variable) result }
{
    if high {
        return high_of(problem, variable);
    }
    low_of(problem, variable)
}

// The real part of a value and the tiny part of its low bound (false), or the other parts of a high bound and a
// value.
fn mixed_parts(high: bool, limit: &Delta<Frac>, value: &Delta<Frac>) -> Delta<Frac>
    ensures { result ≡ mixed_parts high limit.now value.now }
{
    if high {
        Delta {
            real: limit.real,
            tiny: value.tiny,
        }
    } else {
        Delta {
            real: value.real,
            tiny: limit.tiny,
        }
    }
}

// Whether a number is greater than another.
fn exceeds(one: Frac, other: Frac) -> bool
    ensures { IsTrue result ↔ IsBelow (fraction_of other) (fraction_of one) }
{
    match one.compare(other) {
        Ordering::Greater => true,
        _ => false,
    }
}

// Whether both parts are.
fn both_exceed(one: &Delta<Frac>, other: &Delta<Frac>) -> bool
    ensures { IsTrue result ↔ ExceedsEach one.now other.now }
{
    if !exceeds(one.real, other.real) {
        return false;
    }
    exceeds(one.tiny, other.tiny)
}

// The quotient of the margins between a bound and a value, where both are positive.
fn quotient_of(high: bool, limit: &Delta<Frac>, value: &Delta<Frac>) -> Result<Option<Frac>, Wide>
    ensures is { IfOk result (IsAnswerOf high limit.now value.now) }
    ensures stays { OnOk result (MarginsStay high limit.now value.now) }
    ensures passes { IfErr result (PassesMargins high limit.now value.now) }
{
    let first = mixed_parts(high, limit, value);
    let second = mixed_parts(!high, limit, value);
    if !both_exceed(&first, &second) {
        return Ok(None);
    }
    let margins = match difference(first, second) {
        Ok(margins) => margins,
        Err(wide) => return Err(wide),
    };
    match margins.real.div(margins.tiny) {
        Ok(quotient) => Ok(Some(quotient)),
        Err(wide) => Err(wide),
    }
}

// The same of a range at the corner.
fn quotient_at(
    problem: &Problem,
    state: &State,
    high: bool,
    variable: u32,
) -> Result<Option<Frac>, Wide>
    requires problem { IsProblem problem.now }
    requires shaped { IsShaped problem.now state.now }
    requires variable { variable < length state.now.places.items }
    ensures is { (x : Corner) (t : Factors) → IsAt problem.now state.now x t
        → IfOk result (IsAnswerAt (whole_problem problem.now) x t high variable) }
    ensures stays { (x : Corner) (t : Factors) → IsAt problem.now state.now x t
        → OnOk result (QuotientStays (whole_problem problem.now) x t high variable) }
    ensures passes { (x : Corner) (t : Factors) → IsAt problem.now state.now x t
        → IfErr result (PassesQuotient (whole_problem problem.now) x t high variable) }
{
    problems_are_whole();
    let limit = limit_of(problem, high, variable);
    let value = value_of(problem, state, variable);
    quotient_of(high, &limit, &value)
}

// The lesser of two numbers.
fn lesser(one: Option<Frac>, other: Option<Frac>) -> Option<Frac>
    ensures { IsLesser one other result }
{
    let Some(first) = one else {
        return other;
    };
    let Some(second) = other else {
        return one;
    };
    if exceeds(first, second) { other } else { one }
}

// The least quotient of those seen and one more.
fn with_quotient(
    problem: &Problem,
    state: &State,
    high: bool,
    variable: u32,
    least: Option<Frac>,
) -> Result<Option<Frac>, Wide>
    requires problem { IsProblem problem.now }
    requires small { IsSmallProblem problem.now }
    requires shaped { IsShaped problem.now state.now }
    requires variable { variable < length problem.now.ranges }
    ensures is { (x : Corner) (t : Factors) (seen : Bool → ℕ → Bool) → IsAt problem.now state.now x t → IsLeastOf (whole_problem problem.now) x t seen least
        → IfOk result (IsLeastOf (whole_problem problem.now) x t (with_seen seen high variable)) }
    ensures stays { (x : Corner) (t : Factors) (seen : Bool → ℕ → Bool) → IsAt problem.now state.now x t → SeenStay (whole_problem problem.now) x t seen
        → OnOk result (SeenStay (whole_problem problem.now) x t (with_seen seen high variable)) }
    ensures passes { (x : Corner) (t : Factors) → IsAt problem.now state.now x t → IfErr result (PassesSmall (whole_problem problem.now) x t) }
{
    problems_are_whole();
    match quotient_at(problem, state, high, variable) {
        Ok(own) => Ok(lesser(least, own)),
        Err(wide) => Err(wide),
    }
}

/// The least quotient at the corner, where there is one.
pub fn least_quotient(problem: &Problem, state: &State) -> Result<Option<Frac>, Wide>
    requires problem { IsProblem problem.now }
    requires small { IsSmallProblem problem.now }
    requires shaped { IsShaped problem.now state.now }
    ensures is { (x : Corner) (t : Factors) → IsAt problem.now state.now x t
        → IfOk result (IsLeastOf (whole_problem problem.now) x t (below_seen (length problem.now.ranges))) }
    ensures stays { (x : Corner) (t : Factors) → IsAt problem.now state.now x t
        → OnOk result (SeenStay (whole_problem problem.now) x t (below_seen (length problem.now.ranges))) }
    ensures passes { (x : Corner) (t : Factors) → IsAt problem.now state.now x t → IfErr result (PassesSmall (whole_problem problem.now) x t) }
{
    let mut least = None;
    for variable in 0..problem.ranges.as_slice().len() as u32 {
        match with_both(problem, state, variable, least) {
            Ok(next) => least = next,
            Err(wide) => return Err(wide),
        }
    }
    Ok(least)
}

// The least quotient of the ranges below this one, and of this one at its low and its high bound.
fn with_both(
    problem: &Problem,
    state: &State,
    variable: u32,
    least: Option<Frac>,
) -> Result<Option<Frac>, Wide>
    requires problem { IsProblem problem.now }
    requires small { IsSmallProblem problem.now }
    requires shaped { IsShaped problem.now state.now }
    requires variable { variable < length problem.now.ranges }
    ensures is { (x : Corner) (t : Factors) → IsAt problem.now state.now x t → IsLeastOf (whole_problem problem.now) x t (below_seen variable) least
        → IfOk result (IsLeastOf (whole_problem problem.now) x t (below_seen (variable + 1))) }
    ensures stays { (x : Corner) (t : Factors) → IsAt problem.now state.now x t → SeenStay (whole_problem problem.now) x t (below_seen variable)
        → OnOk result (SeenStay (whole_problem problem.now) x t (below_seen (variable + 1))) }
    ensures passes { (x : Corner) (t : Factors) → IsAt problem.now state.now x t → IfErr result (PassesSmall (whole_problem problem.now) x t) }
{
    match with_quotient(problem, state, false, variable, least) {
        Ok(low) => with_quotient(problem, state, true, variable, low),
        Err(wide) => Err(wide),
    }
}
