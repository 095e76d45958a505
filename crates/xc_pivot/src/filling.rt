// The factors and values of the first corner.
ghost use Rattle.std.specs.Prelude.{◌≡◌, ◌+◌, ◌<◌, ◌^◌, ℕ, Bool, IfOk, IfErr, OnOk, length, All};
ghost use Rattle.xc_corners.specs.Choices.{first_corner};
ghost use Rattle.xc_corners.specs.Operations.{IsZero, IsLowSum, entries_of};
ghost use Rattle.xc_corners.specs.Tables.{first_factors};
ghost use Rattle.xc_corners.specs.WholeNumbers.{whole_problem};
ghost use Rattle.xc_frac.specs.declared.wide.Wide.{Wide};
ghost use Rattle.xc_pivot.specs.States.{IsShaped, IsAt};
ghost use Rattle.xc_corners.specs.Problems.{IsProblem, IsSmallProblem};
ghost use Rattle.xc_model.specs.Ratio.{Ratio};
ghost use Rattle.xc_pivot.specs.Deltas.{of_part};
ghost use Rattle.xc_pivot.specs.Firsts.{PassesFirst, HasRowSums, EntriesStay, PassesEntry, KeepsRows, LowStays, IsLowAdded, HasSums, RowsStay, HasLowSums, AreFirstPlaces};
ghost use Rattle.xc_tableau.specs.Tables.{Has, IsFilled};

use crate::bounds::{low_of, zero};
use crate::deltas::{product, sum};
use crate::types::State;
use xc_corners::Problem;
use xc_corners::laws::{basic_variables, problems_are_whole, solved_forms};
use xc_frac::{Delta, Frac, Wide};
use xc_tableau::Tableau;

// Adds up the weights of a row, whose entries in the table are 0.
fn add_row(entries: &[(u32, Frac)], table: &mut Tableau, row: u32) -> Result<(), Wide>
    requires row { row < table.old.rows }
    requires named { All (λ entry. entry.0 < table.old.columns) entries.now }
    requires filled { IsFilled table.old }
    requires zeros { (j : ℕ) (f : Ratio) → j < table.old.columns → Has table.old row j f → IsZero f }
    ensures rows { table.new.rows ≡ table.old.rows }
    ensures columns { table.new.columns ≡ table.old.columns }
    ensures filled { IsFilled table.new }
    ensures kept { KeepsRows table.old row table.new }
    ensures sums { OnOk result (HasRowSums table.new row entries.now) }
    ensures stays { OnOk result (EntriesStay entries.now (length entries.now)) }
    ensures passes { IfErr result (PassesEntry entries.now) }
{
    for entry in entries {
        let (column, weight) = *entry;
        match table.entry(row, column).add(weight) {
            Ok(sum) => table.set(row, column, sum),
            Err(wide) => return Err(wide),
        }
    }
    Ok(())
}

// The first value of a row: its factors times the low bounds.
fn low_value(problem: &Problem, table: &Tableau, row: u32) -> Result<Delta<Frac>, Wide>
    requires problem { IsProblem problem.now }
    requires small { IsSmallProblem problem.now }
    requires row { row < length problem.now.rows }
    requires rows { table.now.rows ≡ length problem.now.rows }
    requires columns { table.now.columns ≡ length problem.now.ranges }
    requires sums { HasRowSums table.now row (entries_of problem.now row) }
    ensures is { IfOk result (λ value. (c : Bool) → IsLowSum problem.now row c (length problem.now.ranges) (of_part value c)) }
    ensures stays { OnOk result (LowStays problem.now row (length problem.now.ranges)) }
    ensures passes { IfErr result (PassesFirst problem.now) }
{
    let mut value = zero();
    for column in 0..problem.ranges.as_slice().len() as u32 {
        match add_low(problem, table, row, column, value) {
            Ok(more) => value = more,
            Err(wide) => return Err(wide),
        }
    }
    Ok(value)
}

// A partial sum and the product of a factor with its low bound.
fn add_low(
    problem: &Problem,
    table: &Tableau,
    row: u32,
    column: u32,
    value: Delta<Frac>,
) -> Result<Delta<Frac>, Wide>
    requires problem { IsProblem problem.now }
    requires row { row < length problem.now.rows }
    requires column { column < length problem.now.ranges }
    requires rows { table.now.rows ≡ length problem.now.rows }
    requires columns { table.now.columns ≡ length problem.now.ranges }
    requires sums { HasRowSums table.now row (entries_of problem.now row) }
    requires value { (c : Bool) → IsLowSum problem.now row c column (of_part value c) }
    ensures is { IfOk result (IsLowAdded problem.now row column value) }
    ensures passes { IfErr result (PassesFirst problem.now) }
{
    match product(table.entry(row, column), low_of(problem, column)) {
        Err(wide) => Err(wide),
        Ok(part) => sum(value, part),
    }
}

/// Adds up the weights of all rows in a table of zeros.
pub fn add_weights(problem: &Problem, table: &mut Tableau) -> Result<(), Wide>
    requires problem { IsProblem problem.now }
    requires small { IsSmallProblem problem.now }
    requires rows { table.old.rows ≡ length problem.now.rows }
    requires columns { table.old.columns ≡ length problem.now.ranges }
    requires filled { IsFilled table.old }
    requires zeros { All IsZero table.old.entries }
    ensures rows { table.new.rows ≡ table.old.rows }
    ensures columns { table.new.columns ≡ table.old.columns }
    ensures filled { IsFilled table.new }
    ensures sums { OnOk result (HasSums problem.now (length problem.now.rows) table.new) }
    ensures stays { OnOk result (RowsStay problem.now (length problem.now.rows)) }
    ensures passes { IfErr result (PassesFirst problem.now) }
{
    let rows = problem.rows.as_slice();
    for row in 0..rows.len() as u32 {
        match add_row(rows[row as usize].as_slice(), table, row) {
            Ok(()) => {}
            Err(wide) => return Err(wide),
        }
    }
    Ok(())
}

/// The first values of all rows.
pub fn low_values(
    problem: &Problem,
    table: &Tableau,
    values: &mut [Delta<Frac>],
) -> Result<(), Wide>
    requires problem { IsProblem problem.now }
    requires small { IsSmallProblem problem.now }
    requires rows { table.now.rows ≡ length problem.now.rows }
    requires columns { table.now.columns ≡ length problem.now.ranges }
    requires sums { HasSums problem.now (length problem.now.rows) table.now }
    requires values { length values.old ≡ length problem.now.rows }
    ensures count { length values.new ≡ length values.old }
    ensures is { OnOk result (HasLowSums problem.now (length problem.now.rows) values.new) }
    ensures stays { OnOk result ((i : ℕ) → i < length problem.now.rows → LowStays problem.now i (length problem.now.ranges)) }
    ensures passes { IfErr result (PassesFirst problem.now) }
{
    for row in 0..values.len() as u32 {
        match low_value(problem, table, row) {
            Ok(value) => values[row as usize] = value,
            Err(wide) => return Err(wide),
        }
    }
    Ok(())
}

/// The factors and values of the first corner; or an operation of them that passes.
pub fn fill(problem: &Problem, state: &mut State) -> Result<(), Wide>
    requires problem { IsProblem problem.now }
    requires small { IsSmallProblem problem.now }
    requires shaped { IsShaped problem.now state.old }
    requires zeros { All IsZero state.old.table.entries }
    requires places { AreFirstPlaces (length problem.now.ranges) state.old.places.items }
    ensures places { state.new.places ≡ state.old.places }
    ensures shaped { OnOk result (IsShaped problem.now state.new) }
    ensures at { OnOk result (IsAt problem.now state.new (first_corner (whole_problem problem.now)) (first_factors (whole_problem problem.now))) }
    ensures fits { OnOk result ((w : Wide) → ¬ PassesFirst problem.now w) }
    ensures passes { IfErr result (PassesFirst problem.now) }
{
    problems_are_whole();
    basic_variables();
    solved_forms();
    if let Err(wide) = add_weights(problem, &mut state.table) {
        return Err(wide);
    }
    low_values(problem, &state.table, state.values.as_mut_slice())
}
