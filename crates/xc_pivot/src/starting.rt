// What the walk keeps, at the first corner.
ghost use Rattle.std.specs.Prelude.{◌≡◌, ◌+◌, ◌<◌, ◌^◌, IfOk, length, All};
ghost use Rattle.xc_corners.specs.Operations.{IsZero};
ghost use Rattle.xc_corners.specs.Problems.{IsSmallProblem};
ghost use Rattle.xc_pivot.specs.Firsts.{first_place, AreFirstPlaces};
ghost use Rattle.xc_pivot.specs.States.{IsShaped};

use crate::bounds::zero;
use crate::types::{Place, State};
use std::alloc::Global;
use xc_corners::Problem;
use xc_frac::{Delta, Frac};
use xc_lists::Memory;
use xc_tableau::Tableau;

/// A place for each variable: the ranges have columns, on their low sides, and the rows their own.
pub fn first_places(alloc: Global, columns: u32, rows: u32) -> Result<Vec<Place>, Memory>
    requires { columns + rows < 2 ^ 32 }
    ensures count { IfOk result (λ places. length places.items ≡ columns + rows) }
    ensures places { IfOk result (λ places. AreFirstPlaces columns places.items) }
{
    let mut places = Vec::new(alloc);
    for variable in 0..columns + rows {
        places.push(first_place(columns, variable))?;
    }
    Ok(places)
}

// The place of one of them.
fn first_place(columns: u32, variable: u32) -> Place
    ensures { result ≡ first_place columns variable }
{
    if variable < columns {
        Place::Low(variable)
    } else {
        Place::Row(variable - columns)
    }
}

/// The state before its factors and values are worked out: all are 0.
pub fn start(alloc: Global, problem: &Problem) -> Result<State, Memory>
    requires { IsSmallProblem problem.now }
    ensures shaped { IfOk result (IsShaped problem.now) }
    ensures zeros { IfOk result (λ s. All IsZero s.table.entries) }
    ensures places { IfOk result (λ s. AreFirstPlaces (length problem.now.ranges) s.places.items) }
{
    let columns = problem.ranges.as_slice().len() as u32;
    let rows = problem.rows.as_slice().len() as u32;
    let table = Tableau::new(alloc, rows, columns)?;
    let values = zeros(alloc, rows)?;
    let places = first_places(alloc, columns, rows)?;
    Ok(State {
        table,
        values,
        places,
    })
}

// Zeros, this many.
fn zeros(alloc: Global, count: u32) -> Result<Vec<Delta<Frac>>, Memory>
    ensures { IfOk result (λ values. length values.items ≡ count) }
{
    let mut values = Vec::new(alloc);
    for _row in 0..count {
        values.push(zero())?;
    }
    Ok(values)
}
