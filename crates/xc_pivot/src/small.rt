// The small number at a feasible corner, and the values with it.
ghost use Rattle.std.specs.Prelude.{◌≡◌, ◌<◌, ℕ, IfOk, IfErr, OnOk, length};
ghost use Rattle.xc_corners.specs.Corners.{Corner, Factors};
ghost use Rattle.xc_corners.specs.Ending.{IsTwo, IsSmallNumber, IsValueWith, AreValuesWith};
ghost use Rattle.xc_corners.specs.Problems.{IsProblem, IsSmallProblem};
ghost use Rattle.xc_corners.specs.WholeNumbers.{whole_problem};
ghost use Rattle.xc_pivot.specs.Quotients.{PassesSmall};
ghost use Rattle.xc_pivot.specs.SmallValues.{IsHalfOf, PassesHalf, SmallStays, ValueStays, PassesValue, ValuesStay, PassesOneValue};
ghost use Rattle.xc_pivot.specs.States.{IsShaped, IsAt};

use crate::quotients::{least_quotient, value_of};
use crate::types::State;
use xc_corners::Problem;
use xc_corners::laws::problems_are_whole;
use xc_frac::{Frac, Wide, ratio};

fn two() -> Frac
    ensures { IsTwo result }
{
    ratio(2, 1)
}

// Half of a number; 1 where there is none.
fn half(least: Option<Frac>) -> Result<Frac, Wide>
    ensures is { IfOk result (IsHalfOf least) }
    ensures passes { IfErr result (PassesHalf least) }
{
    match least {
        None => Ok(ratio(1, 1)),
        Some(number) => number.div(two()),
    }
}

/// The small number at a feasible corner, or an operation that passes on the way to it.
pub fn small_number(problem: &Problem, state: &State) -> Result<Frac, Wide>
    requires problem { IsProblem problem.now }
    requires small { IsSmallProblem problem.now }
    requires shaped { IsShaped problem.now state.now }
    ensures is { (x : Corner) (t : Factors) → IsAt problem.now state.now x t → IfOk result (IsSmallNumber (whole_problem problem.now) x t) }
    ensures stays { (x : Corner) (t : Factors) → IsAt problem.now state.now x t → OnOk result (SmallStays (whole_problem problem.now) x t) }
    ensures passes { (x : Corner) (t : Factors) → IsAt problem.now state.now x t → IfErr result (PassesSmall (whole_problem problem.now) x t) }
{
    problems_are_whole();
    match least_quotient(problem, state) {
        Ok(least) => half(least),
        Err(wide) => Err(wide),
    }
}

// The value of a range with the small number.
fn value_with(problem: &Problem, state: &State, variable: u32, small: Frac) -> Result<Frac, Wide>
    requires problem { IsProblem problem.now }
    requires shaped { IsShaped problem.now state.now }
    requires variable { variable < length state.now.places.items }
    ensures is { (x : Corner) (t : Factors) → IsAt problem.now state.now x t
        → IfOk result (IsValueWith (whole_problem problem.now) x t small variable) }
    ensures stays { (x : Corner) (t : Factors) → IsAt problem.now state.now x t
        → OnOk result (ValueStays (whole_problem problem.now) x t small variable) }
    ensures passes { (x : Corner) (t : Factors) → IsAt problem.now state.now x t
        → IfErr result (PassesValue (whole_problem problem.now) x t small variable) }
{
    let value = value_of(problem, state, variable);
    match value.tiny.mul(small) {
        Ok(product) => value.real.add(product),
        Err(wide) => Err(wide),
    }
}

/// Puts the values of all ranges with the small number.
pub fn put_values(
    problem: &Problem,
    state: &State,
    small: Frac,
    values: &mut [Frac],
) -> Result<(), Wide>
    requires problem { IsProblem problem.now }
    requires few { IsSmallProblem problem.now }
    requires shaped { IsShaped problem.now state.now }
    requires count { length values.old ≡ length problem.now.ranges }
    ensures count { length values.new ≡ length values.old }
    ensures are { (x : Corner) (t : Factors) → IsAt problem.now state.now x t
        → OnOk result (AreValuesWith (whole_problem problem.now) x t small values.new) }
    ensures stays { (x : Corner) (t : Factors) → IsAt problem.now state.now x t
        → OnOk result (ValuesStay (whole_problem problem.now) x t small) }
    ensures passes { (x : Corner) (t : Factors) → IsAt problem.now state.now x t
        → IfErr result (PassesOneValue (whole_problem problem.now) x t small) }
{
    problems_are_whole();
    for variable in 0..values.len() as u32 {
        match value_with(problem, state, variable, small) {
            Ok(value) => values[variable as usize] = value,
            Err(wide) => return Err(wide),
        }
    }
    Ok(())
}
