// The walk from the first corner to the last.
ghost use Rattle.std.specs.Prelude.{◌≡◌, ◌+◌, ◌<◌, ◌^◌, ◌++◌, ◌∷◌, [], ℕ, if◌then◌else◌, IfOk, OnOk, IfSome, IfNone, length, All};
ghost use Rattle.xc_corners.specs.Choices.{first_corner};
ghost use Rattle.xc_corners.specs.Operations.{IsZero};
ghost use Rattle.xc_corners.specs.Problems.{IsProblem, IsSmallProblem};
ghost use Rattle.xc_corners.specs.Tables.{first_factors};
ghost use Rattle.xc_corners.specs.WholeNumbers.{whole_problem};
ghost use Rattle.xc_frac.specs.declared.wide.Wide.{Wide};
ghost use Rattle.xc_pivot.specs.Firsts.{PassesFirst, AreFirstPlaces};
ghost use Rattle.xc_pivot.specs.States.{IsShaped, IsAt, is_row, is_high};
ghost use Rattle.xc_pivot.specs.Walks.{TellsCorner, IsLastCorner, IsTooWideAt, NothingPasses, IfLast, IfTooWide, EndsAtLast, EndsTooWide};

use crate::choosing::choice;
use crate::filling::fill;
use crate::laws::corner_laws;
use crate::starting::start;
use crate::stepping::exchange;
use crate::turns::Turns;
use crate::types::{Place, State, Walk};
use std::alloc::Global;
use std::marker::Brand;
use std::sync::ledger::{Blank, Ledger};
use xc_corners::laws::{basic_variables, problems_are_whole, runs_end};
use xc_corners::{Corner, Problem};
use xc_frac::Wide;
use xc_lists::Memory;

/// Walks along the corners of a problem, from the first to the last one, by the choice of least numbers; or up
/// to a corner where an operation passes. No range is empty, each entry of a row names a range, and there are
/// fewer than 2^31 ranges and rows. Memory is taken before the first exchange.
pub fn walk(alloc: Global, problem: &Problem) -> Result<Walk, Memory>
    requires problem { IsProblem problem.now }
    requires small { IsSmallProblem problem.now }
    // the last corner is told exactly where no operation passes at a corner of the run
    ensures last { IfOk result (IfLast (IsLastCorner problem.now)) }
    ensures fits { IfOk result (IfLast (λ lists. NothingPasses problem.now)) }
    // and else a corner of the run, with an operation that passes there
    ensures too_wide { IfOk result (IfTooWide (IsTooWideAt problem.now)) }
{
    let mut state = start(alloc, problem)?;
    let basic = Vec::with_capacity(alloc, state.places.len())?;
    let high = Vec::with_capacity(alloc, state.places.len())?;
    let end = walk_to_end(problem, &mut state);
    let corner = tell_corner(state.places.as_slice(), basic, high)?;
    Ok(match end {
        None => Walk::Last(corner),
        Some(wide) => Walk::TooWide(corner, wide),
    })
}

/// Goes from the first corner as far as no operation passes: to the last one, or to one where the answer passes.
pub fn walk_to_end(problem: &Problem, state: &mut State) -> Option<Wide>
    requires problem { IsProblem problem.now }
    requires small { IsSmallProblem problem.now }
    requires shaped { IsShaped problem.now state.old }
    requires zeros { All IsZero state.old.table.entries }
    requires places { AreFirstPlaces (length problem.now.ranges) state.old.places.items }
    ensures few { length state.new.places.items < 2 ^ 32 }
    ensures none { IfNone result (EndsAtLast problem.now state.new) }
    ensures some { IfSome result (EndsTooWide problem.now state.new.places.items) }
{
    problems_are_whole();
    basic_variables();
    match fill(problem, state) {
        Err(wide) => Some(wide),
        Ok(()) => run::<Brand>(problem, state, Blank::new(1)),
    }
}

// The same from the filled state on. It ends, since the run has fewer than 3^v exchanges over v variables.
fn run<L: Ledger>(problem: &Problem, state: &mut State, blank: Blank) -> Option<Wide>
    requires name { blank.name ≡ L.name }
    requires parts { blank.parts ≡ L.parts }
    requires some { 0 < blank.parts }
    requires problem { IsProblem problem.now }
    requires small { IsSmallProblem problem.now }
    requires shaped { IsShaped problem.now state.old }
    requires at { IsAt problem.now state.old (first_corner (whole_problem problem.now)) (first_factors (whole_problem problem.now)) }
    requires fits { (w : Wide) → ¬ PassesFirst problem.now w }
    ensures few { length state.new.places.items < 2 ^ 32 }
    ensures none { IfNone result (EndsAtLast problem.now state.new) }
    ensures some { IfSome result (EndsTooWide problem.now state.new.places.items) }
{
    problems_are_whole();
    corner_laws();
    runs_end();
    let mut turns: Turns<L> = Turns::new(blank);
    while let Some(choice) = choice(problem, state) {
        if let Err(wide) = exchange(problem, state, &choice) {
            return Some(wide);
        }
        turns.tick();
    }
    None
}

/// The corner of these places, told by two lists that are empty yet.
pub fn tell_corner(
    places: &[Place],
    mut basic: Vec<u32>,
    mut high: Vec<u32>,
) -> Result<Corner, Memory>
    requires few { length places.now < 2 ^ 32 }
    requires basic { basic.items ≡ [] }
    requires high { high.items ≡ [] }
    ensures { IfOk result (TellsCorner places.now) }
{
    for variable in 0..places.len() as u32 {
        push_number_if(&mut basic, variable, is_basic(&places[variable as usize]))?;
        push_number_if(&mut high, variable, is_on_high(&places[variable as usize]))?;
    }
    Ok(Corner::of(basic, high))
}

// Puts a number into the list, or not.
fn push_number_if(list: &mut Vec<u32>, number: u32, there: bool) -> Result<(), Memory>
    ensures { OnOk result (list.new.items ≡ (if there then list.old.items ++ number ∷ [] else list.old.items)) }
{
    if there {
        list.push(number)?;
    }
    Ok(())
}

fn is_basic(place: &Place) -> bool
    ensures { result ≡ is_row place.now }
{
    match place {
        Place::Row(_) => true,
        _ => false,
    }
}

fn is_on_high(place: &Place) -> bool
    ensures { result ≡ is_high place.now }
{
    match place {
        Place::High(_) => true,
        _ => false,
    }
}
