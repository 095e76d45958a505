// The choice at a corner.
ghost use Rattle.std.specs.Prelude.{◌≡◌, ◌≢◌, ◌↔◌, IsTrue, ◌+◌, ◌*◌, ◌<◌, ◌^◌, ℕ, true, IfSome, IfNone, length};
ghost use Rattle.xc_corners.specs.Choices.{CanEnter, IsFeasible};
ghost use Rattle.xc_corners.specs.Corners.{low_bound, high_bound, Corner, Factors, IsOutside, IsWithin};
ghost use Rattle.xc_corners.specs.Problems.{IsProblem, IsSmallProblem};
ghost use Rattle.xc_corners.specs.WholeNumbers.{whole_problem};
ghost use Rattle.xc_model.specs.Parts.{WholeParts};
ghost use Rattle.xc_pivot.specs.Deltas.{ArePartsOf};
ghost use Rattle.xc_pivot.specs.States.{IsShaped, IsAt, IsLeaving, IsEntering, IsChoice, HasNoChoice, HasRow, HasColumn, IsSideOf, IsPastOf};

use crate::bounds::{helps, high_of, is_below, low_of};
use crate::types::{Choice, Entering, Leaving, Place, State};
use xc_corners::Problem;
use xc_corners::laws::problems_are_whole;
use xc_frac::{Delta, Frac};

/// The choice at the corner; None where there is none.
pub fn choice(problem: &Problem, state: &State) -> Option<Choice>
    requires small { IsSmallProblem problem.now }
    requires problem { IsProblem problem.now }
    requires shaped { IsShaped problem.now state.now }
    ensures some { (x : Corner) (t : Factors) → IsAt problem.now state.now x t
        → IfSome result (IsChoice (whole_problem problem.now) state.now.places.items x t) }
    ensures none { (x : Corner) (t : Factors) → IsAt problem.now state.now x t
        → IfNone result (HasNoChoice (whole_problem problem.now) x t) }
{
    problems_are_whole();
    let Some(leaving) = leaving_variable(problem, state) else {
        return None;
    };
    let Some(entering) = entering_variable(problem, state, leaving) else {
        return None;
    };
    Some(Choice { leaving, entering })
}

/// The least basic variable that is outside its bounds.
pub fn leaving_variable(problem: &Problem, state: &State) -> Option<Leaving>
    requires small { IsSmallProblem problem.now }
    requires problem { IsProblem problem.now }
    requires shaped { IsShaped problem.now state.now }
    ensures row { IfSome result (λ l. HasRow state.now.places.items l.variable l.row) }
    ensures some { (x : Corner) (t : Factors) → IsAt problem.now state.now x t
        → IfSome result (IsLeaving (whole_problem problem.now) state.now.places.items x t) }
    ensures none { (x : Corner) (t : Factors) → IsAt problem.now state.now x t
        → IfNone result (IsFeasible (whole_problem problem.now) x t) }
{
    problems_are_whole();
    for variable in 0..state.places.len() as u32 {
        if let Some(leaving) = leaving_at(problem, state, variable) {
            return Some(leaving);
        }
    }
    None
}

// Whether this variable is basic and outside its bounds.
fn leaving_at(problem: &Problem, state: &State, variable: u32) -> Option<Leaving>
    requires problem { IsProblem problem.now }
    requires shaped { IsShaped problem.now state.now }
    requires variable { variable < length state.now.places.items }
    ensures variable { IfSome result (λ l. l.variable ≡ variable) }
    ensures row { IfSome result (λ l. HasRow state.now.places.items variable l.row) }
    ensures some { (x : Corner) (t : Factors) → IsAt problem.now state.now x t
        → IfSome result (λ l. IsOutside (whole_problem problem.now) x t l.above variable) }
    ensures none { (x : Corner) (t : Factors) → IsAt problem.now state.now x t
        → IfNone result (x.basic variable ≡ true → IsWithin (whole_problem problem.now) x t variable) }
{
    let Place::Row(row) = state.places[variable as usize] else {
        return None;
    };
    let Some(above) = side_of(problem, variable, state.values[row as usize]) else {
        return None;
    };
    Some(Leaving {
        variable,
        row,
        above,
    })
}

// Which bound of a variable the value is past.
fn side_of(problem: &Problem, variable: u32, value: Delta<Frac>) -> Option<bool>
    requires problem { IsProblem problem.now }
    ensures side { (w : ℕ) (a : WholeParts) → 0 < w → ArePartsOf (w * (whole_problem problem.now).unit) a value
        → IsSideOf result problem.now variable w a }
{
    let low = low_of(problem, variable);
    let high = high_of(problem, variable);
    past_side(&value, &low, &high)
}

// Which of two bounds a value is past.
fn past_side(value: &Delta<Frac>, low: &Delta<Frac>, high: &Delta<Frac>) -> Option<bool>
    ensures { (n : ℕ) (l a h : WholeParts) → ArePartsOf n l low.now → ArePartsOf n a value.now → ArePartsOf n h high.now
        → IsPastOf result l a h }
{
    if is_below(value, low) {
        return Some(false);
    }
    if is_below(high, value) {
        return Some(true);
    }
    None
}

// The least variable that can enter.
fn entering_variable(problem: &Problem, state: &State, leaving: Leaving) -> Option<Entering>
    requires small { IsSmallProblem problem.now }
    requires problem { IsProblem problem.now }
    requires shaped { IsShaped problem.now state.now }
    requires row { HasRow state.now.places.items leaving.variable leaving.row }
    ensures some { (x : Corner) (t : Factors) → IsAt problem.now state.now x t
        → IfSome result (IsEntering (whole_problem problem.now) state.now.places.items x t leaving) }
    ensures none { (x : Corner) (t : Factors) → IsAt problem.now state.now x t
        → IfNone result ((q : ℕ) → q < length state.now.places.items
        → ¬ CanEnter (whole_problem problem.now) x t leaving.above leaving.variable q) }
{
    problems_are_whole();
    for variable in 0..state.places.len() as u32 {
        if let Some(column) = entering_column(problem, state, leaving, variable) {
            return Some(Entering { variable, column });
        }
    }
    None
}

// The column of this variable, if it can enter.
fn entering_column(problem: &Problem, state: &State, leaving: Leaving, variable: u32) -> Option<u32>
    requires problem { IsProblem problem.now }
    requires shaped { IsShaped problem.now state.now }
    requires row { HasRow state.now.places.items leaving.variable leaving.row }
    requires variable { variable < length state.now.places.items }
    ensures column { IfSome result (HasColumn state.now.places.items variable) }
    ensures some { (x : Corner) (t : Factors) → IsAt problem.now state.now x t
        → IfSome result (λ c. CanEnter (whole_problem problem.now) x t leaving.above leaving.variable variable) }
    ensures none { (x : Corner) (t : Factors) → IsAt problem.now state.now x t
        → IfNone result (¬ CanEnter (whole_problem problem.now) x t leaving.above leaving.variable variable) }
{
    match state.places[variable as usize] {
        Place::Row(_) => None,
        Place::Low(column) => can_enter(problem, state, leaving, variable, column, false),
        Place::High(column) => can_enter(problem, state, leaving, variable, column, true),
    }
}

// The column of a variable on its low or high side, if it can enter.
fn can_enter(
    problem: &Problem,
    state: &State,
    leaving: Leaving,
    variable: u32,
    column: u32,
    is_high: bool,
) -> Option<u32>
    requires problem { IsProblem problem.now }
    requires shaped { IsShaped problem.now state.now }
    requires row { HasRow state.now.places.items leaving.variable leaving.row }
    requires column { HasColumn state.now.places.items variable column }
    ensures is { IfSome result (λ c. c ≡ column) }
    ensures some { (x : Corner) (t : Factors) → IsAt problem.now state.now x t → x.high variable ≡ is_high
        → IfSome result (λ c. CanEnter (whole_problem problem.now) x t leaving.above leaving.variable variable) }
    ensures none { (x : Corner) (t : Factors) → IsAt problem.now state.now x t → x.high variable ≡ is_high
        → IfNone result (¬ CanEnter (whole_problem problem.now) x t leaving.above leaving.variable variable) }
{
    if !is_free(problem, variable) {
        return None;
    }
    if !helps(
        leaving.above,
        is_high,
        state.table.entry(leaving.row, column),
    ) {
        return None;
    }
    Some(column)
}

/// Whether the two bounds of a variable are different.
pub fn is_free(problem: &Problem, variable: u32) -> bool
    requires problem { IsProblem problem.now }
    ensures free { IsTrue result ↔ (low_bound (whole_problem problem.now) variable ≢ high_bound (whole_problem problem.now) variable) }
{
    problems_are_whole();
    is_below(&low_of(problem, variable), &high_of(problem, variable))
}
