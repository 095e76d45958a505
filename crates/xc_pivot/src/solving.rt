// The answer to a problem: the values at a feasible corner, or the refutation of a conflict.
ghost use Rattle.std.specs.Prelude.{◌≡◌, ◌<◌, ◌^◌, [], IfOk, IfSome, IfNone, length};
ghost use Rattle.xc_corners.specs.Corners.{Corner, Factors};
ghost use Rattle.xc_corners.specs.Problems.{IsProblem, IsSmallProblem};
ghost use Rattle.xc_corners.specs.WholeNumbers.{whole_problem};
ghost use Rattle.xc_pivot.specs.SmallValues.{AreDone, PassesFeasible};
ghost use Rattle.xc_pivot.specs.Solving.{IsSolution, IsRefutation, StopsAt, IfFeasible, IfInfeasible, IfStopped};
ghost use Rattle.xc_pivot.specs.States.{IsShaped, IsAt};
ghost use Rattle.xc_pivot.specs.Walks.{IsStop};

use crate::choosing::leaving_variable;
use crate::laws::corner_laws;
use crate::refuting::multipliers;
use crate::small::{put_values, small_number};
use crate::starting::start;
use crate::types::{Outcome, State};
use crate::walking::{tell_corner, walk_to_end};
use std::alloc::Global;
use xc_corners::laws::{conflicts_contradict, feasible_corners_solve, problems_are_whole};
use xc_corners::{Multipliers, Problem};
use xc_frac::{Frac, Wide, ratio};
use xc_lists::{Items, Memory};

/// Solves a problem, by the walk along its corners: values that lie in all ranges and meet all rows, or multipliers
/// that contradict it; or a corner, and an operation on the way to an answer that passes there, exactly where there is
/// one. No range is empty, each entry of a row names a range, and there are fewer than 2^31 ranges and rows. Memory is
/// taken before the first exchange.
pub fn solve(alloc: Global, problem: &Problem) -> Result<Outcome, Memory>
    requires problem { IsProblem problem.now }
    requires small { IsSmallProblem problem.now }
    ensures feasible { IfOk result (IfFeasible (IsSolution problem.now)) }
    ensures infeasible { IfOk result (IfInfeasible (IsRefutation problem.now)) }
    ensures too_wide { IfOk result (IfStopped (StopsAt problem.now)) }
{
    problems_are_whole();
    corner_laws();
    conflicts_contradict();
    feasible_corners_solve();
    let mut state = start(alloc, problem)?;
    let basic = Vec::with_capacity(alloc, state.places.len())?;
    let high = Vec::with_capacity(alloc, state.places.len())?;
    let mut values = zero_values(alloc, problem.ranges.as_slice().len() as u32)?;
    let empty = empty_lists(alloc, problem)?;
    if let Some(wide) = walk_to_end(problem, &mut state) {
        return too_wide_outcome(&state, basic, high, wide);
    }
    if let Some(leaving) = leaving_variable(problem, &state) {
        let refutation = multipliers(problem, &state, leaving, empty)?;
        return Ok(Outcome::Infeasible(refutation));
    }
    if let Some(wide) = put_feasible_values(problem, &state, values.as_mut_slice()) {
        return too_wide_outcome(&state, basic, high, wide);
    }
    Ok(Outcome::Feasible(Items::of(values)))
}

// Zeros, this many.
fn zero_values(alloc: Global, count: u32) -> Result<Vec<Frac>, Memory>
    ensures { IfOk result (λ values. length values.items ≡ count) }
{
    let mut values = Vec::new(alloc);
    for _range in 0..count {
        values.push(ratio(0, 1))?;
    }
    Ok(values)
}

// Lists of multipliers that are empty yet, with room for all.
fn empty_lists(alloc: Global, problem: &Problem) -> Result<Multipliers, Memory>
    ensures rows { IfOk result (λ m. m.rows ≡ []) }
    ensures lows { IfOk result (λ m. m.lows ≡ []) }
    ensures highs { IfOk result (λ m. m.highs ≡ []) }
{
    let rows = Vec::with_capacity(alloc, problem.rows.as_slice().len())?;
    let lows = Vec::with_capacity(alloc, problem.ranges.as_slice().len())?;
    let highs = Vec::with_capacity(alloc, problem.ranges.as_slice().len())?;
    Ok(Multipliers {
        rows: Items::of(rows),
        lows: Items::of(lows),
        highs: Items::of(highs),
    })
}

// The corner of the state, told by two lists that are empty yet, and the operation that passes there.
fn too_wide_outcome(
    state: &State,
    basic: Vec<u32>,
    high: Vec<u32>,
    wide: Wide,
) -> Result<Outcome, Memory>
    requires few { length state.now.places.items < 2 ^ 32 }
    requires basic { basic.items ≡ [] }
    requires high { high.items ≡ [] }
    ensures { IfOk result (IsStop state.now.places.items wide) }
{
    let corner = tell_corner(state.places.as_slice(), basic, high)?;
    Ok(Outcome::TooWide(corner, wide))
}

// Puts the values of a feasible corner with its small number; or answers an operation that passes.
fn put_feasible_values(problem: &Problem, state: &State, values: &mut [Frac]) -> Option<Wide>
    requires problem { IsProblem problem.now }
    requires few { IsSmallProblem problem.now }
    requires shaped { IsShaped problem.now state.now }
    requires count { length values.old ≡ length problem.now.ranges }
    ensures none { (x : Corner) (t : Factors) → IsAt problem.now state.now x t
        → IfNone result (AreDone (whole_problem problem.now) x t values.new) }
    ensures some { (x : Corner) (t : Factors) → IsAt problem.now state.now x t
        → IfSome result (PassesFeasible (whole_problem problem.now) x t) }
{
    match small_number(problem, state) {
        Err(wide) => Some(wide),
        Ok(small) => match put_values(problem, state, small, values) {
            Err(wide) => Some(wide),
            Ok(()) => None,
        },
    }
}
