// Tables, their entries and their exchanges.
ghost use Rattle.std.specs.Prelude.{◌≡◌, ◌≢◌, ◌<◌, ◌≤◌, ◌+◌, ◌*◌, ◌^◌, ℕ, pos, IfOk, IfErr, OnOk, OnErr, length, All, slice_set};
ghost use Rattle.xc_corners.specs.Operations.{IsZero};
ghost use Rattle.xc_frac.specs.declared.wide.Wide.{Wide};
ghost use Rattle.xc_model.specs.Ratio.{Ratio};
ghost use Rattle.xc_tableau.specs.Exchanges.{PassesIn, IsExchanged};
ghost use Rattle.xc_tableau.specs.Tables.{Has, IsFilled};

use crate::pivoting::{Pivot, exchange, place};
use std::alloc::Global;
use std::marker::Model;
use xc_frac::{Frac, Wide, ratio};
use xc_lists::Memory;

/// A table of fractions with a number of rows and of columns. It has room for a second one of its size, into
/// which an exchange is written: so no operation is made twice, and one that passes leaves the table as it was.
#[derive(Debug, Drop)]
pub struct Tableau {
    rows: u32,
    columns: u32,
    entries: Vec<Frac>,
    spare: Vec<Frac>,
}

impl Model for Tableau {
    ghost use Rattle.std.specs.Prelude.{◌≡◌, ◌*◌, length};
    ghost use Rattle.xc_tableau.specs.Tables.{Table};

    ghost Value = { Table };

    ghost view = { λ t. record { rows = t.rows; columns = t.columns; entries = t.entries.items } };

    ghost invariant = { λ t. (length t.entries.items ≡ t.rows * t.columns) × (length t.spare.items ≡ t.rows * t.columns) };
}

impl Tableau {
    /// A table of zeros.
    pub fn new(alloc: Global, rows: u32, columns: u32) -> Result<Tableau, Memory>
        ensures rows { IfOk result (λ t. t.rows ≡ rows) }
        ensures columns { IfOk result (λ t. t.columns ≡ columns) }
        ensures zero { IfOk result (λ t. All IsZero t.entries) }
        ensures filled { IfOk result IsFilled }
    {
        let count = rows as usize * columns as usize;
        Ok(Tableau {
            rows,
            columns,
            entries: zeros(alloc, count)?,
            spare: zeros(alloc, count)?,
        })
    }

    /// The entry of a row and a column, which are in range.
    pub fn entry(&self, row: u32, column: u32) -> Frac
        requires row { row < self.now.rows }
        requires column { column < self.now.columns }
        ensures { Has self.now row column result }
    {
        self.entries[place(self.columns, row, column)]
    }

    /// Sets the entry of a row and a column, which are in range.
    pub fn set(&mut self, row: u32, column: u32, value: Frac)
        requires row { row < self.old.rows }
        requires column { column < self.old.columns }
        ensures rows { self.new.rows ≡ self.old.rows }
        ensures columns { self.new.columns ≡ self.old.columns }
        ensures filled { IsFilled self.new }
        ensures entries { self.new.entries ≡ slice_set self.old.entries (row * self.old.columns + column) value }
    {
        self.entries[place(self.columns, row, column)] = value;
    }

    /// Exchanges a row and a column, whose entry is not 0; or answers an operation of the exchange that passes,
    /// and then the table is as it was.
    pub fn pivot(&mut self, row: u32, column: u32) -> Result<(), Wide>
        requires row { row < self.old.rows }
        requires column { column < self.old.columns }
        requires some { (f : Ratio) → Has self.old row column f → f.num ≢ pos 0 }
        ensures exchanged { OnOk result (IsExchanged self.old row column self.new) }
        ensures fits { OnOk result ((w : Wide) → ¬ PassesIn self.old row column w) }
        ensures passes { IfErr result (PassesIn self.old row column) }
        ensures filled { IsFilled self.new }
        ensures unchanged { OnErr result (self.new ≡ self.old) }
    {
        let pivot = Pivot {
            rows: self.rows,
            columns: self.columns,
            row,
            column,
            value: self.entry(row, column),
        };
        if let Err(wide) = exchange(self.entries.as_slice(), self.spare.as_mut_slice(), &pivot) {
            return Err(wide);
        }
        std::mem::swap(&mut self.entries, &mut self.spare);
        Ok(())
    }
}

// Zeros, this many.
fn zeros(alloc: Global, count: usize) -> Result<Vec<Frac>, Memory>
    ensures length { IfOk result (λ zeros. length zeros.items ≡ count) }
    ensures zero { IfOk result (λ zeros. All IsZero zeros.items) }
{
    let mut zeros = Vec::new(alloc);
    for _place in 0..count {
        zeros.push(ratio(0, 1))?;
    }
    Ok(zeros)
}
