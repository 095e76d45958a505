// The refutation of a conflict, read off the row of the variable that cannot come back.
ghost use Rattle.std.specs.Prelude.{◌≡◌, ◌≢◌, ◌↔◌, ◌+◌, ◌<◌, ◌++◌, ◌∷◌, [], ℕ, ℤ, pos, ◌<ℤ◌, if◌then◌else◌, IsTrue, IfOk, OnOk, length};
ghost use Rattle.xc_corners.specs.Conflicts.{opposite_if, multiplier, IsNonzero, IsPositive, AreLinesOf, AreOfConflict};
ghost use Rattle.xc_corners.specs.Corners.{Corner, Factors};
ghost use Rattle.xc_corners.specs.Problems.{IsSmallProblem};
ghost use Rattle.xc_corners.specs.WholeNumbers.{whole_problem};
ghost use Rattle.xc_model.specs.Ratio.{IsOver};
ghost use Rattle.xc_pivot.specs.States.{IsShaped, IsAt, HasRow};

use crate::bounds::helps;
use crate::types::{Leaving, Place, State};
use xc_corners::laws::problems_are_whole;
use xc_corners::{Multipliers, Problem};
use xc_frac::{Frac, ratio};
use xc_lists::{Items, Memory};

// A number, or its negative.
fn number_with_sign(is_turned: bool, number: Frac) -> Frac
    ensures { (n : ℤ) (d : ℕ) → IsOver number n d → IsOver result (opposite_if is_turned n) d }
{
    if is_turned {
        return number.neg();
    }
    number
}

// How often a basic variable counts: once where it is the one that cannot come back.
fn own_count(leaving: Leaving, variable: u32) -> Frac
    ensures own { variable ≡ leaving.variable → IsOver result (opposite_if leaving.above (pos 1)) 1 }
    ensures other { variable ≢ leaving.variable → IsOver result (pos 0) 1 }
{
    if variable == leaving.variable {
        return number_with_sign(leaving.above, ratio(1, 1));
    }
    ratio(0, 1)
}

// How often a variable counts.
fn count_of(problem: &Problem, state: &State, leaving: Leaving, variable: u32) -> Frac
    requires shaped { IsShaped problem.now state.now }
    requires row { HasRow state.now.places.items leaving.variable leaving.row }
    requires variable { variable < length state.now.places.items }
    ensures { (x : Corner) (t : Factors) → IsAt problem.now state.now x t
        → IsOver result (multiplier x t leaving.above leaving.variable variable) t.over }
{
    match state.places[variable as usize] {
        Place::Row(_) => own_count(leaving, variable),
        Place::Low(column) => number_with_sign(
            !leaving.above,
            state.table.entry(leaving.row, column),
        ),
        Place::High(column) => number_with_sign(
            !leaving.above,
            state.table.entry(leaving.row, column),
        ),
    }
}

fn is_positive(number: Frac) -> bool
    ensures { (n : ℤ) (d : ℕ) → IsOver number n d → IsTrue result ↔ (pos 0 <ℤ n) }
{
    helps(true, true, number)
}

fn is_nonzero(number: Frac) -> bool
    ensures { (n : ℤ) (d : ℕ) → IsOver number n d → IsTrue result ↔ (n ≢ pos 0) }
{
    if helps(true, true, number) {
        return true;
    }
    helps(true, false, number)
}

// Puts a number with its multiplier into the list, or not.
fn push_multiplier_if(
    list: &mut Vec<(u32, Frac)>,
    number: u32,
    multiplier: Frac,
    there: bool,
) -> Result<(), Memory>
    ensures { OnOk result (list.new.items ≡ (if there then list.old.items ++ (number, multiplier) ∷ [] else list.old.items)) }
{
    if there {
        list.push((number, multiplier))?;
    }
    Ok(())
}

// The ranges that count positively, with how often; or turned round.
fn list_ends(
    problem: &Problem,
    state: &State,
    leaving: Leaving,
    is_turned: bool,
    mut list: Vec<(u32, Frac)>,
) -> Result<Vec<(u32, Frac)>, Memory>
    requires small { IsSmallProblem problem.now }
    requires shaped { IsShaped problem.now state.now }
    requires row { HasRow state.now.places.items leaving.variable leaving.row }
    requires list { list.items ≡ [] }
    ensures { (x : Corner) (t : Factors) → IsAt problem.now state.now x t
        → IfOk result (λ lines. AreLinesOf (length problem.now.ranges) (λ j. opposite_if is_turned (multiplier x t leaving.above leaving.variable j)) IsPositive t.over lines.items) }
{
    for variable in 0..problem.ranges.as_slice().len() as u32 {
        let count = number_with_sign(is_turned, count_of(problem, state, leaving, variable));
        push_multiplier_if(&mut list, variable, count, is_positive(count))?;
    }
    Ok(list)
}

// The rows that count, with how often.
fn list_rows(
    problem: &Problem,
    state: &State,
    leaving: Leaving,
    mut list: Vec<(u32, Frac)>,
) -> Result<Vec<(u32, Frac)>, Memory>
    requires small { IsSmallProblem problem.now }
    requires shaped { IsShaped problem.now state.now }
    requires row { HasRow state.now.places.items leaving.variable leaving.row }
    requires list { list.items ≡ [] }
    ensures { (x : Corner) (t : Factors) → IsAt problem.now state.now x t
        → IfOk result (λ lines. AreLinesOf (length problem.now.rows) (λ i. multiplier x t leaving.above leaving.variable (length problem.now.ranges + i)) IsNonzero t.over lines.items) }
{
    let first = problem.ranges.as_slice().len() as u32;
    for row in 0..problem.rows.as_slice().len() as u32 {
        let count = count_of(problem, state, leaving, first + row);
        push_multiplier_if(&mut list, row, count, is_nonzero(count))?;
    }
    Ok(list)
}

/// The multipliers of the conflict at the variable that cannot come back, in lists that are empty yet.
pub fn multipliers(
    problem: &Problem,
    state: &State,
    leaving: Leaving,
    empty: Multipliers,
) -> Result<Multipliers, Memory>
    requires small { IsSmallProblem problem.now }
    requires shaped { IsShaped problem.now state.now }
    requires row { HasRow state.now.places.items leaving.variable leaving.row }
    requires rows { empty.rows ≡ [] }
    requires lows { empty.lows ≡ [] }
    requires highs { empty.highs ≡ [] }
    ensures { (x : Corner) (t : Factors) → IsAt problem.now state.now x t
        → IfOk result (AreOfConflict (whole_problem problem.now) x t leaving.above leaving.variable) }
{
    problems_are_whole();
    let rows = list_rows(problem, state, leaving, empty.rows.into_vec())?;
    let lows = list_ends(problem, state, leaving, false, empty.lows.into_vec())?;
    let highs = list_ends(problem, state, leaving, true, empty.highs.into_vec())?;
    Ok(Multipliers {
        rows: Items::of(rows),
        lows: Items::of(lows),
        highs: Items::of(highs),
    })
}
