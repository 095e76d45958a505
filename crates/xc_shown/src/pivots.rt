// Exchanges in tables.
//
// `= pivot ROW COLUMN NAME` begins a table. Each line of its text is a row of it, as `1/2 0`, where
// `M` is the greatest number that fits.
ghost use Rattle.std.specs.Prelude.{◌≡◌, ◌<◌};

use crate::cases::Part;
use crate::walks::{number_of, show_frac, show_wide};
use std::alloc::{AllocError, Global};
use xc_frac::{Frac, ratio};
use xc_tableau::Tableau;

/// Each table, as an exchange of a row and a column leaves it; and an operation that passes.
pub fn show(alloc: Global, parts: &[Part]) -> Result<String, AllocError> {
    let mut out = String::new(alloc);
    for part in parts {
        show_part(alloc, &mut out, part)?;
    }
    Ok(out)
}

fn show_part(alloc: Global, out: &mut String, part: &Part) -> Result<(), AllocError> {
    out.push_str(part.words.as_str())?;
    out.push('\n')?;
    let mut words = part.words.as_str().split(' ').skip(1);
    let row = place_of(words.next());
    let column = place_of(words.next());
    let text = part.text.as_str();
    let rows = u32::try_from(text.lines().count()).unwrap_or(0);
    let columns = columns_of(text);
    let Ok(mut table) = Tableau::new(alloc, rows, columns) else {
        return out.push_str("no memory\n");
    };
    fill(&mut table, rows, columns, text);
    if row >= rows || column >= columns {
        return out.push_str("no entry\n");
    }
    if table.entry(row, column).num() == 0 {
        return out.push_str("no pivot\n");
    }
    if let Err(wide) = table.pivot(row, column) {
        show_wide(alloc, out, wide)?;
    }
    show_table(alloc, out, &table, rows, columns)
}

fn place_of(word: Option<&str>) -> u32 {
    word.unwrap_or("").parse::<u32>().unwrap_or(0)
}

// How many entries the first row has.
fn columns_of(text: &str) -> u32 {
    match text.lines().next() {
        Some(line) => u32::try_from(line.split(' ').count()).unwrap_or(0),
        None => 0,
    }
}

// Sets the entries of all rows.
fn fill(table: &mut Tableau, rows: u32, columns: u32, text: &str)
    requires rows { table.old.rows ≡ rows }
    requires columns { table.old.columns ≡ columns }
    ensures rows { table.new.rows ≡ rows }
    ensures columns { table.new.columns ≡ columns }
{
    for row in 0..rows {
        fill_row(
            table,
            row,
            columns,
            text.lines().nth(row as usize).unwrap_or(""),
        );
    }
}

// Sets the entries of a row; 0 where the line has none.
fn fill_row(table: &mut Tableau, row: u32, columns: u32, line: &str)
    requires row { row < table.old.rows }
    requires columns { table.old.columns ≡ columns }
    ensures rows { table.new.rows ≡ table.old.rows }
    ensures columns { table.new.columns ≡ columns }
{
    for column in 0..columns {
        let word = line.split(' ').nth(column as usize).unwrap_or("");
        table.set(row, column, entry_of(word));
    }
}

fn entry_of(word: &str) -> Frac {
    if word == "M" {
        return ratio(i128::MAX, 1);
    }
    number_of(word)
}

fn show_table(
    alloc: Global,
    out: &mut String,
    table: &Tableau,
    rows: u32,
    columns: u32,
) -> Result<(), AllocError>
    requires rows { table.now.rows ≡ rows }
    requires columns { table.now.columns ≡ columns }
{
    for row in 0..rows {
        for column in 0..columns {
            show_frac(alloc, out, table.entry(row, column))?;
        }
        out.push('\n')?;
    }
    Ok(())
}
