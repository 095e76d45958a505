// An exchange, written row by row into another table.
ghost use Rattle.std.specs.Prelude.{◌≡◌, ◌≢◌, ◌<◌, ◌+◌, ◌*◌, ◌^◌, ℕ, pos, IfOk, IfErr, OnOk, OnErr, IsTrue, ◌↔◌, length};
ghost use Rattle.xc_corners.specs.Operations.{IsNegativeOf, IsProductFactor};
ghost use Rattle.xc_frac.specs.declared.wide.Wide.{Wide};
ghost use Rattle.xc_tableau.specs.Exchanges.{IsEntering, IsLeaving, IsOtherEntry, IsExchanged};
ghost use Rattle.xc_tableau.specs.Steps.{IsPivot, table, PassesInPivot, EnteringDone, HasZero, RowDone, RowsKept, OthersDone};
ghost use Rattle.xc_tableau.specs.Tables.{Has};

use xc_frac::{Frac, Wide, ratio};

/// The row and the column that are exchanged in a table with this many rows and columns, and their entry.
#[derive(Drop)]
pub struct Pivot {
    pub rows: u32,
    pub columns: u32,
    pub row: u32,
    pub column: u32,
    pub value: Frac,
}

/// Where the entry of a row and a column stands among the entries.
pub fn place(columns: u32, row: u32, column: u32) -> usize
    ensures { result ≡ row * columns + column }
{
    row as usize * columns as usize + column as usize
}

/// Writes the exchange into another table of the same shape; or answers an operation of it that passes.
pub fn exchange(entries: &[Frac], new: &mut [Frac], pivot: &Pivot) -> Result<(), Wide>
    requires pivot { IsPivot pivot.now entries.now }
    requires room { length new.old ≡ pivot.now.rows * pivot.now.columns }
    ensures room { length new.new ≡ length new.old }
    ensures exchanged { OnOk result (IsExchanged (table pivot.now entries.now) pivot.now.row pivot.now.column (table pivot.now new.new)) }
    ensures fits { OnOk result ((w : Wide) → ¬ PassesInPivot pivot.now entries.now w) }
    ensures passes { IfErr result (PassesInPivot pivot.now entries.now) }
{
    fill_entering(entries, new, pivot)?;
    fill_others(entries, new, pivot)
}

// Writes the new row of the pivot.
fn fill_entering(entries: &[Frac], new: &mut [Frac], pivot: &Pivot) -> Result<(), Wide>
    requires pivot { IsPivot pivot.now entries.now }
    requires room { length new.old ≡ pivot.now.rows * pivot.now.columns }
    ensures room { length new.new ≡ length new.old }
    ensures done { OnOk result (EnteringDone pivot.now entries.now pivot.now.columns new.new) }
    ensures passes { IfErr result (PassesInPivot pivot.now entries.now) }
{
    for column in 0..pivot.columns {
        new[place(pivot.columns, pivot.row, column)] = entering_entry(entries, pivot, column)?;
    }
    Ok(())
}

// What stands afterwards in the pivot's row and a column.
fn entering_entry(entries: &[Frac], pivot: &Pivot, column: u32) -> Result<Frac, Wide>
    requires pivot { IsPivot pivot.now entries.now }
    requires column { column < pivot.now.columns }
    ensures is { IfOk result (IsEntering (table pivot.now entries.now) pivot.now.row pivot.now.column column) }
    ensures passes { IfErr result (PassesInPivot pivot.now entries.now) }
{
    if column == pivot.column {
        return ratio(1, 1).div(pivot.value);
    }
    negative_of(entries[place(pivot.columns, pivot.row, column)]).div(pivot.value)
}

// Minus a number.
fn negative_of(number: Frac) -> Frac
    ensures { IsNegativeOf number result }
{
    number.neg()
}

// Whether a number is 0.
fn is_zero(number: Frac) -> bool
    ensures { IsTrue result ↔ (number.num ≡ pos 0) }
{
    number.num() == 0
}

// Writes every other row.
fn fill_others(entries: &[Frac], new: &mut [Frac], pivot: &Pivot) -> Result<(), Wide>
    requires pivot { IsPivot pivot.now entries.now }
    requires room { length new.old ≡ pivot.now.rows * pivot.now.columns }
    requires entering { EnteringDone pivot.now entries.now pivot.now.columns new.old }
    ensures room { length new.new ≡ length new.old }
    ensures entering { OnOk result (EnteringDone pivot.now entries.now pivot.now.columns new.new) }
    ensures done { OnOk result (OthersDone pivot.now entries.now pivot.now.rows new.new) }
    ensures passes { IfErr result (PassesInPivot pivot.now entries.now) }
{
    for row in 0..pivot.rows {
        fill_row(entries, new, pivot, row)?;
    }
    Ok(())
}

// Writes a row, unless it is the pivot's.
fn fill_row(entries: &[Frac], new: &mut [Frac], pivot: &Pivot, row: u32) -> Result<(), Wide>
    requires pivot { IsPivot pivot.now entries.now }
    requires row { row < pivot.now.rows }
    requires room { length new.old ≡ pivot.now.rows * pivot.now.columns }
    requires entering { EnteringDone pivot.now entries.now pivot.now.columns new.old }
    ensures room { length new.new ≡ length new.old }
    ensures kept { RowsKept pivot.now row new.old new.new }
    ensures entering { OnOk result (EnteringDone pivot.now entries.now pivot.now.columns new.new) }
    ensures done { OnOk result (row ≢ pivot.now.row → RowDone pivot.now entries.now row pivot.now.columns new.new) }
    ensures passes { IfErr result (PassesInPivot pivot.now entries.now) }
{
    if row == pivot.row {
        return Ok(());
    }
    let factor = entries[place(pivot.columns, row, pivot.column)];
    if is_zero(factor) {
        keep_row(entries, new, pivot, row);
        return Ok(());
    }
    for column in 0..pivot.columns {
        let entering = new[place(pivot.columns, pivot.row, column)];
        new[place(pivot.columns, row, column)] = other_entry(
            entries, pivot, row, column, factor, entering,
        )?;
    }
    Ok(())
}

// Writes a row as it is: its factor of the pivot's column is 0, so nothing is added to it.
fn keep_row(entries: &[Frac], new: &mut [Frac], pivot: &Pivot, row: u32)
    requires pivot { IsPivot pivot.now entries.now }
    requires row { row < pivot.now.rows }
    requires other { row ≢ pivot.now.row }
    requires room { length new.old ≡ pivot.now.rows * pivot.now.columns }
    requires entering { EnteringDone pivot.now entries.now pivot.now.columns new.old }
    requires factor { HasZero (table pivot.now entries.now) row pivot.now.column }
    ensures room { length new.new ≡ length new.old }
    ensures kept { RowsKept pivot.now row new.old new.new }
    ensures done { RowDone pivot.now entries.now row pivot.now.columns new.new }
{
    for column in 0..pivot.columns {
        let place = place(pivot.columns, row, column);
        new[place] = entries[place];
    }
}

// What stands afterwards in another row and a column, where the entering row has the entry of this column.
fn other_entry(
    entries: &[Frac],
    pivot: &Pivot,
    row: u32,
    column: u32,
    factor: Frac,
    entering: Frac,
) -> Result<Frac, Wide>
    requires pivot { IsPivot pivot.now entries.now }
    requires row { row < pivot.now.rows }
    requires other { row ≢ pivot.now.row }
    requires column { column < pivot.now.columns }
    requires factor { Has (table pivot.now entries.now) row pivot.now.column factor }
    requires entering { IsEntering (table pivot.now entries.now) pivot.now.row pivot.now.column column entering }
    ensures is { IfOk result (IsOtherEntry (table pivot.now entries.now) pivot.now.row pivot.now.column row column) }
    ensures passes { IfErr result (PassesInPivot pivot.now entries.now) }
{
    let product = product(entries, pivot, row, column, factor, entering)?;
    if column == pivot.column {
        return Ok(product);
    }
    entries[place(pivot.columns, row, column)].add(product)
}

// The factor of the pivot's column in another row, times what stands afterwards in the pivot's row.
fn product(
    entries: &[Frac],
    pivot: &Pivot,
    row: u32,
    column: u32,
    factor: Frac,
    entering: Frac,
) -> Result<Frac, Wide>
    requires row { row < pivot.now.rows }
    requires other { row ≢ pivot.now.row }
    requires column { column < pivot.now.columns }
    requires factor { Has (table pivot.now entries.now) row pivot.now.column factor }
    requires entering { IsEntering (table pivot.now entries.now) pivot.now.row pivot.now.column column entering }
    ensures leaving { IfOk result (λ r. column ≡ pivot.now.column
        → IsLeaving (table pivot.now entries.now) pivot.now.row pivot.now.column row r) }
    ensures product { IfOk result (λ m. column ≢ pivot.now.column
        → IsProductFactor (Has (table pivot.now entries.now)) pivot.now.row pivot.now.column row column m) }
    ensures passes { IfErr result (PassesInPivot pivot.now entries.now) }
{
    factor.mul(entering)
}
