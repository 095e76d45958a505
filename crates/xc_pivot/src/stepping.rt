// The step to the next corner.
ghost use Rattle.std.specs.Prelude.{◌≡◌, ◌≢◌, ◌<◌, ◌^◌, ℕ, List, IfOk, IfErr, OnOk, OnErr, length, slice_set};
ghost use Rattle.xc_corners.specs.Corners.{Corner, Factors};
ghost use Rattle.xc_corners.specs.Problems.{WholeProblem, IsProblem, IsSmallProblem};
ghost use Rattle.xc_corners.specs.WholeNumbers.{whole_problem};
ghost use Rattle.xc_model.specs.Ratio.{Ratio};
ghost use Rattle.xc_frac.specs.declared.delta.Delta.{Delta};
ghost use Rattle.xc_frac.specs.declared.wide.Wide.{Wide};
ghost use Rattle.xc_pivot.specs.States.{IsShaped, IsAt, IsChoice, HasRow};
ghost use Rattle.xc_pivot.specs.declared.types.Place.{Place};
ghost use Rattle.xc_pivot.specs.Steps.{IsAtNext, PassesNext, IsStepOf, IsEnteringMoved, IsBasicMoved, AreMoved, IsBasicAt, AreBasicAt, IsGapOf, IsMoveOf, IsEnteringValue, IsPassedBound, IsChosen, places_after_exchange, left_place, is_left_high};

use crate::bounds::{high_of, low_of};
use crate::choosing::is_free;
use crate::deltas::{difference, product, quotient, sum};
use crate::types::{Choice, Place, State};
use xc_corners::Problem;
use xc_corners::laws::{
    basic_variables, operations_give_factors, operations_give_values, problems_are_whole,
    solved_forms, values_at_corners,
};
use xc_frac::{Delta, Frac, Wide};
use xc_tableau::Tableau;

// The step of the entering variable: what its value is moved by, so that the leaving one gets to the bound that
// it passed.
fn step(problem: &Problem, state: &State, choice: &Choice) -> Result<Delta<Frac>, Wide>
    requires problem { IsProblem problem.now }
    requires shaped { IsShaped problem.now state.now }
    requires chosen { IsChosen state.now choice.now }
    ensures is { (x : Corner) (t : Factors) → IsAt problem.now state.now x t
        → IfOk result (IsStepOf (whole_problem problem.now) x t choice.now) }
    ensures passes { (x : Corner) (t : Factors) → IsAt problem.now state.now x t
        → IfErr result (PassesNext (whole_problem problem.now) x t choice.now) }
{
    match gap(problem, state, choice) {
        Err(wide) => Err(wide),
        Ok(gap) => quotient(
            gap,
            state
                .table
                .entry(choice.leaving.row, choice.entering.column),
        ),
    }
}

// The gap between the bound that the leaving variable passed and its value.
fn gap(problem: &Problem, state: &State, choice: &Choice) -> Result<Delta<Frac>, Wide>
    requires problem { IsProblem problem.now }
    requires shaped { IsShaped problem.now state.now }
    requires chosen { IsChosen state.now choice.now }
    ensures is { (x : Corner) (t : Factors) → IsAt problem.now state.now x t
        → IfOk result (IsGapOf (whole_problem problem.now) x t choice.now) }
    ensures passes { (x : Corner) (t : Factors) → IsAt problem.now state.now x t
        → IfErr result (PassesNext (whole_problem problem.now) x t choice.now) }
{
    difference(
        passed_bound(problem, choice),
        state.values[choice.leaving.row as usize],
    )
}

// The bound that the leaving variable passed.
fn passed_bound(problem: &Problem, choice: &Choice) -> Delta<Frac>
    requires problem { IsProblem problem.now }
    ensures bound { IsPassedBound problem.now choice.now result }
{
    if choice.leaving.above {
        return high_of(problem, choice.leaving.variable);
    }
    low_of(problem, choice.leaving.variable)
}

// The value of the entering variable, moved by the step.
fn entering_value(
    problem: &Problem,
    state: &State,
    choice: &Choice,
    step: &Delta<Frac>,
) -> Result<Delta<Frac>, Wide>
    requires problem { IsProblem problem.now }
    requires shaped { IsShaped problem.now state.now }
    requires chosen { IsChosen state.now choice.now }
    ensures is { (x : Corner) (t : Factors) → IsAt problem.now state.now x t → IsStepOf (whole_problem problem.now) x t choice.now step.now
        → IfOk result (IsEnteringMoved (whole_problem problem.now) x t choice.now) }
    ensures passes { (x : Corner) (t : Factors) → IsAt problem.now state.now x t
        → IsStepOf (whole_problem problem.now) x t choice.now step.now → IfErr result (PassesNext (whole_problem problem.now) x t choice.now) }
{
    sum(side_bound(problem, state, choice), *step)
}

// The bound of the entering variable's side.
fn side_bound(problem: &Problem, state: &State, choice: &Choice) -> Delta<Frac>
    requires problem { IsProblem problem.now }
    requires shaped { IsShaped problem.now state.now }
    requires chosen { IsChosen state.now choice.now }
    ensures value { (x : Corner) (t : Factors) → IsAt problem.now state.now x t
        → IsEnteringValue (whole_problem problem.now) x t choice.now result }
{
    values_at_corners();
    match state.places[choice.entering.variable as usize] {
        Place::High(_) => high_of(problem, choice.entering.variable),
        _ => low_of(problem, choice.entering.variable),
    }
}

// Moves the values of the other basic variables.
fn move_others(
    table: &Tableau,
    values: &mut [Delta<Frac>],
    choice: &Choice,
    step: &Delta<Frac>,
) -> Result<(), Wide>
    requires few { length values.old < 2 ^ 32 }
    requires rows { length values.old ≡ table.now.rows }
    requires column { choice.now.entering.column < table.now.columns }
    ensures count { length values.new ≡ length values.old }
    ensures done { (p : WholeProblem) (x : Corner) (t : Factors) (places : List Place)
        → AreBasicAt p x t choice.now table.now places values.old → IsStepOf p x t choice.now step.now
        → OnOk result (AreMoved p x t choice.now places (length values.old) values.new) }
    ensures passes { (p : WholeProblem) (x : Corner) (t : Factors) (places : List Place)
        → AreBasicAt p x t choice.now table.now places values.old → IsStepOf p x t choice.now step.now
        → ((r : ℕ) → r < length values.old → (k : ℕ) × HasRow places k r)
        → IfErr result (PassesNext p x t choice.now) }
{
    for row in 0..values.len() as u32 {
        match basic_value(table, choice, row, values[row as usize], step) {
            Ok(value) => values[row as usize] = value,
            Err(wide) => return Err(wide),
        }
    }
    Ok(())
}

// The value of another basic variable, moved by its factor times the step; that of the leaving one as it is.
fn basic_value(
    table: &Tableau,
    choice: &Choice,
    row: u32,
    value: Delta<Frac>,
    step: &Delta<Frac>,
) -> Result<Delta<Frac>, Wide>
    requires row { row < table.now.rows }
    requires column { choice.now.entering.column < table.now.columns }
    ensures is { (p : WholeProblem) (x : Corner) (t : Factors) (k : ℕ) → row ≢ choice.now.leaving.row
        → IsBasicAt p x t choice.now table.now k row value
        → IsStepOf p x t choice.now step.now → IfOk result (IsBasicMoved p x t choice.now k) }
    ensures passes { (p : WholeProblem) (x : Corner) (t : Factors) (k : ℕ)
        → (row ≢ choice.now.leaving.row → IsBasicAt p x t choice.now table.now k row value)
        → IsStepOf p x t choice.now step.now → IfErr result (PassesNext p x t choice.now) }
{
    if row == choice.leaving.row {
        return Ok(value);
    }
    match row_move(table, choice, row, step) {
        Err(wide) => Err(wide),
        Ok(moved) => sum(value, moved),
    }
}

// What the step adds to the value of a row.
fn row_move(
    table: &Tableau,
    choice: &Choice,
    row: u32,
    step: &Delta<Frac>,
) -> Result<Delta<Frac>, Wide>
    requires row { row < table.now.rows }
    requires column { choice.now.entering.column < table.now.columns }
    ensures is { (p : WholeProblem) (x : Corner) (t : Factors) (k : ℕ) (d : Delta Ratio) → IsBasicAt p x t choice.now table.now k row d
        → IsStepOf p x t choice.now step.now → IfOk result (IsMoveOf p x t choice.now k) }
    ensures passes { (p : WholeProblem) (x : Corner) (t : Factors) (k : ℕ) (d : Delta Ratio)
        → IsBasicAt p x t choice.now table.now k row d
        → IsStepOf p x t choice.now step.now → IfErr result (PassesNext p x t choice.now) }
{
    product(table.entry(row, choice.entering.column), *step)
}

// Moves the values of the other basic variables of the state.
fn move_values(
    problem: &Problem,
    state: &mut State,
    choice: &Choice,
    step: &Delta<Frac>,
) -> Result<(), Wide>
    requires small { IsSmallProblem problem.now }
    requires shaped { IsShaped problem.now state.old }
    requires chosen { IsChosen state.old choice.now }
    ensures table { state.new.table ≡ state.old.table }
    ensures places { state.new.places ≡ state.old.places }
    ensures count { length state.new.values.items ≡ length state.old.values.items }
    ensures done { (x : Corner) (t : Factors) → IsAt problem.now state.old x t → IsStepOf (whole_problem problem.now) x t choice.now step.now
        → OnOk result (AreMoved (whole_problem problem.now) x t choice.now state.old.places.items (length state.old.values.items) state.new.values.items) }
    ensures passes { (x : Corner) (t : Factors) → IsAt problem.now state.old x t → IsStepOf (whole_problem problem.now) x t choice.now step.now
        → IfErr result (PassesNext (whole_problem problem.now) x t choice.now) }
{
    problems_are_whole();
    move_others(&state.table, state.values.as_mut_slice(), choice, step)
}

// Puts the value of a row.
fn put_value(state: &mut State, row: u32, value: Delta<Frac>)
    requires { row < length state.old.values.items }
    ensures table { state.new.table ≡ state.old.table }
    ensures places { state.new.places ≡ state.old.places }
    ensures values { state.new.values.items ≡ slice_set state.old.values.items row value }
{
    state.values[row as usize] = value;
}

// The places after the exchange.
fn exchange_places(problem: &Problem, state: &mut State, choice: &Choice)
    requires problem { IsProblem problem.now }
    requires leaving { choice.now.leaving.variable < length state.old.places.items }
    requires entering { choice.now.entering.variable < length state.old.places.items }
    ensures table { state.new.table ≡ state.old.table }
    ensures values { state.new.values ≡ state.old.values }
    ensures places { state.new.places.items ≡ places_after_exchange problem.now choice.now state.old.places.items }
{
    let left = left_place(problem, choice);
    state.places[choice.leaving.variable as usize] = left;
    state.places[choice.entering.variable as usize] = Place::Row(choice.leaving.row);
}

// Where the leaving variable goes: to the side of the bound that it passed, or to the low one where its bounds
// are equal.
fn left_place(problem: &Problem, choice: &Choice) -> Place
    requires problem { IsProblem problem.now }
    ensures is { result ≡ left_place (is_left_high problem.now choice.now) choice.now.entering.column }
{
    side_place(is_left_high(problem, choice), choice.entering.column)
}

// Whether that is its high side.
fn is_left_high(problem: &Problem, choice: &Choice) -> bool
    requires problem { IsProblem problem.now }
    ensures is { result ≡ is_left_high problem.now choice.now }
{
    if !choice.leaving.above {
        return false;
    }
    is_free(problem, choice.leaving.variable)
}

// A column, with the low side or the high one.
fn side_place(is_high: bool, column: u32) -> Place
    ensures { result ≡ left_place is_high column }
{
    if is_high {
        return Place::High(column);
    }
    Place::Low(column)
}

/// Goes on to the next corner; or answers an operation of the exchange that passes, and then the places are as
/// they were.
pub fn exchange(problem: &Problem, state: &mut State, choice: &Choice) -> Result<(), Wide>
    requires problem { IsProblem problem.now }
    requires small { IsSmallProblem problem.now }
    requires shaped { IsShaped problem.now state.old }
    requires chosen { IsChosen state.old choice.now }
    ensures shaped { OnOk result (IsShaped problem.now state.new) }
    ensures places { OnErr result (state.new.places ≡ state.old.places) }
    ensures at { (x : Corner) (t : Factors) → IsAt problem.now state.old x t
        → IsChoice (whole_problem problem.now) state.old.places.items x t choice.now
        → OnOk result (IsAtNext problem.now state.new x t choice.now) }
    ensures fits { (x : Corner) (t : Factors) → IsAt problem.now state.old x t
        → IsChoice (whole_problem problem.now) state.old.places.items x t choice.now
        → OnOk result ((w : Wide) → ¬ PassesNext (whole_problem problem.now) x t choice.now w) }
    ensures passes { (x : Corner) (t : Factors) → IsAt problem.now state.old x t
        → IsChoice (whole_problem problem.now) state.old.places.items x t choice.now
        → IfErr result (PassesNext (whole_problem problem.now) x t choice.now) }
{
    problems_are_whole();
    basic_variables();
    solved_forms();
    operations_give_factors();
    operations_give_values();
    let step = match step(problem, state, choice) {
        Ok(step) => step,
        Err(wide) => return Err(wide),
    };
    let entering = match entering_value(problem, state, choice, &step) {
        Ok(entering) => entering,
        Err(wide) => return Err(wide),
    };
    if let Err(wide) = move_values(problem, state, choice, &step) {
        return Err(wide);
    }
    if let Err(wide) = state
        .table
        .pivot(choice.leaving.row, choice.entering.column)
    {
        return Err(wide);
    }
    put_value(state, choice.leaving.row, entering);
    exchange_places(problem, state, choice);
    Ok(())
}
