// The values of a forest: what was done while its vertices were taken away is undone.
ghost use Rattle.std.specs.Prelude.{◌≡◌, ℕ, ◌+◌, ◌<◌, ◌∷◌, [], ◌++◌, ◌^◌, Bool, IfOk, length};
ghost use Rattle.xc_forest.specs.Forests.{HasRoom, ranges_of};
ghost use Rattle.xc_forest.specs.Steps.Links.{IsListingOf};
ghost use Rattle.xc_forest.specs.Steps.Scaled.{AreBoundsOver, AreValuesOver, scale_of};
ghost use Rattle.xc_forest.specs.Steps.Splits.{AreSplitOver, CanSplit, pair_with_sign};
ghost use Rattle.xc_forest.specs.Steps.Trails.{AreSettled, AreAllTaken, with_alone, with_point, with_row};
ghost use Rattle.xc_forest.specs.Steps.Vertices.{Span, IsNonempty, IsWithin, row_without_point, no_parts};
ghost use Rattle.xc_model.specs.Parts.{WholeParts, ArePartsOver};

use crate::links::Link;
use crate::spans::{Bounds, difference, is_less, sum};
use crate::types::Forest;
use crate::undos::Undo;
use std::alloc::Global;
use xc_frac::Exact;
use xc_lists::Memory;

/// The values of all vertices, once all that was done is undone.
pub(crate) fn values<E: Exact>(
    alloc: Global,
    forest: &Forest<E>,
    links: &[Link],
    undos: Vec<Undo<E>>,
) -> Result<Vec<E>, Memory>
    requires listing { IsListingOf forest.now links.now }
    requires room { HasRoom E.parts E.passes (ranges_of E.parts forest.now.ranges) }
    requires points { length forest.now.ranges < 2 ^ 31 }
    requires rows { length forest.now.rows < 2 ^ 31 }
    requires taken { AreAllTaken E.parts forest.now links.now undos.items }
    ensures { IfOk result (λ values. AreSettled E.parts forest.now links.now [] values.items) }
{
    let mut undos = undos;
    let mut values = zero_values(alloc, forest)?;
    while let Some(undo) = undos.pop() {
        put_value_back(forest, links, undos.as_slice(), &mut values, undo);
    }
    Ok(values)
}

// A value of 0 for each vertex.
fn zero_values<E: Exact>(alloc: Global, forest: &Forest<E>) -> Result<Vec<E>, Memory>
    requires points { length forest.now.ranges < 2 ^ 31 }
    requires rows { length forest.now.rows < 2 ^ 31 }
    ensures each { IfOk result (λ values. length values.items ≡ length forest.now.ranges + length forest.now.rows) }
    ensures values { IfOk result (λ values. AreValuesOver E.parts (scale_of (ranges_of E.parts forest.now.ranges)) values.items (λ v. no_parts)) }
{
    let mut values = Vec::new(alloc);
    for _vertex in 0..forest.ranges.as_slice().len() + forest.rows.as_slice().len() {
        values.push(E::zero())?;
    }
    Ok(values)
}

// Undoes one step, the last that is left.
fn put_value_back<E: Exact>(
    forest: &Forest<E>,
    links: &[Link],
    undos: &[Undo<E>],
    values: &mut Vec<E>,
    undo: Undo<E>,
)
    requires listing { IsListingOf forest.now links.now }
    requires room { HasRoom E.parts E.passes (ranges_of E.parts forest.now.ranges) }
    requires settled { AreSettled E.parts forest.now links.now (undos.now ++ undo ∷ []) values.old.items }
    ensures { AreSettled E.parts forest.now links.now undos.now values.new.items }
{
    match undo {
        Undo::Point {
            point,
            row,
            minus,
            of_row,
            of_point,
        } => put_point_value(
            forest, links, undos, values, point, row, minus, of_row, of_point,
        ),
        Undo::Row {
            row,
            point,
            minus,
            low_of_row,
            high_of_row,
        } => put_row_value(
            forest,
            links,
            undos,
            values,
            row,
            point,
            minus,
            low_of_row,
            high_of_row,
        ),
        Undo::Alone { vertex, value } => put_lone_value(
            forest, links, undos, values, vertex, value,
        ),
    }
}

// Puts a point back: the value of its row is split.
fn put_point_value<E: Exact>(
    forest: &Forest<E>,
    links: &[Link],
    undos: &[Undo<E>],
    values: &mut Vec<E>,
    point: u32,
    row: u32,
    minus: bool,
    of_row: Bounds<E>,
    of_point: Bounds<E>,
)
    requires listing { IsListingOf forest.now links.now }
    requires room { HasRoom E.parts E.passes (ranges_of E.parts forest.now.ranges) }
    requires settled { AreSettled E.parts forest.now links.now (with_point undos.now point row minus of_row of_point) values.old.items }
    ensures { AreSettled E.parts forest.now links.now undos.now values.new.items }
{
    let (row_value, point_value) = split(minus, of_row, of_point, values[row as usize]);
    values[row as usize] = row_value;
    values[point as usize] = point_value;
}

// Puts a row back: its value is that of its last point, with its sign.
fn put_row_value<E: Exact>(
    forest: &Forest<E>,
    links: &[Link],
    undos: &[Undo<E>],
    values: &mut Vec<E>,
    row: u32,
    point: u32,
    minus: bool,
    low_of_row: bool,
    high_of_row: bool,
)
    requires listing { IsListingOf forest.now links.now }
    requires settled { AreSettled E.parts forest.now links.now (with_row undos.now row point minus low_of_row high_of_row) values.old.items }
    ensures { AreSettled E.parts forest.now links.now undos.now values.new.items }
{
    values[row as usize] = value_with_sign(minus, values[point as usize]);
}

// Puts a vertex without neighbours back, with its value.
fn put_lone_value<E: Exact>(
    forest: &Forest<E>,
    links: &[Link],
    undos: &[Undo<E>],
    values: &mut Vec<E>,
    vertex: u32,
    value: E,
)
    requires listing { IsListingOf forest.now links.now }
    requires settled { AreSettled E.parts forest.now links.now (with_alone undos.now vertex value) values.old.items }
    ensures { AreSettled E.parts forest.now links.now undos.now values.new.items }
{
    values[vertex as usize] = value;
}

// The values of a row and of the point that was taken from it, of what the row has without it: the point has its
// low end, unless that would take the row out of its span.
fn split<E: Exact>(minus: bool, of_row: Bounds<E>, of_point: Bounds<E>, rest: E) -> (E, E)
    requires { CanSplit E.passes minus of_row of_point rest }
    ensures { (x y : Span) (t : WholeParts) (d : ℕ) → AreBoundsOver E.parts d of_row x → AreBoundsOver E.parts d of_point y → ArePartsOver (E.parts rest) t d
        → IsNonempty x → IsNonempty y → IsWithin (row_without_point minus x y) t → AreSplitOver E.parts d minus x y t result.0 result.1 }
{
    let low = of_point.low;
    if minus {
        let edge = of_row.high;
        let with_low = difference(rest, low);
        if is_less(edge, with_low) {
            (edge, difference(rest, edge))
        } else {
            (with_low, low)
        }
    } else {
        let edge = of_row.low;
        let with_low = sum(rest, low);
        if is_less(with_low, edge) {
            (edge, difference(edge, rest))
        } else {
            (with_low, low)
        }
    }
}

// A value, or its negative for a minus sign.
fn value_with_sign<E: Exact>(minus: bool, value: E) -> E
    ensures { (a : WholeParts) (d : ℕ) → ArePartsOver (E.parts value) a d → ArePartsOver (E.parts result) (pair_with_sign minus a) d }
{
    if minus { value.neg() } else { value }
}
