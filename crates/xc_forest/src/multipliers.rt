// Multipliers that refute a forest: what was done while its vertices were taken away is undone.
ghost use Rattle.std.specs.Prelude.{◌≡◌, ℕ, ◌+◌, ◌<◌, ◌∷◌, [], ◌++◌, ◌^◌, Bool, not, IfOk, length};
ghost use Rattle.xc_forest.specs.Forests.{IsUnit, multiplier_at, number_with_sign};
ghost use Rattle.xc_forest.specs.Steps.Links.{IsListingOf};
ghost use Rattle.xc_forest.specs.Steps.Shares.{IsShare, AreZero};
ghost use Rattle.xc_forest.specs.Steps.Trails.{AreRefuted, IsClash, with_alone, with_point, with_row};

use crate::links::Link;
use crate::spans::Bounds;
use crate::types::Forest;
use crate::undos::{Clash, Undo};
use std::alloc::Global;
use xc_frac::Exact;
use xc_lists::Memory;

/// The multipliers of all vertices, once all that was done is undone.
pub(crate) fn multipliers<E: Exact>(
    alloc: Global,
    forest: &Forest<E>,
    links: &[Link],
    undos: Vec<Undo<E>>,
    clash: Clash,
) -> Result<Vec<i8>, Memory>
    requires listing { IsListingOf forest.now links.now }
    requires points { length forest.now.ranges < 2 ^ 31 }
    requires rows { length forest.now.rows < 2 ^ 31 }
    requires clash { IsClash E.parts forest.now links.now undos.items clash }
    ensures { IfOk result (λ multipliers. AreRefuted E.parts forest.now links.now [] multipliers.items) }
{
    let mut undos = undos;
    let mut multipliers = zero_multipliers(
        alloc,
        forest.ranges.as_slice().len() + forest.rows.as_slice().len(),
    )?;
    multipliers[clash.point as usize] = clash.point_by;
    multipliers[clash.row as usize] = clash.row_by;
    while let Some(undo) = undos.pop() {
        put_multiplier_back(forest, links, undos.as_slice(), &mut multipliers, undo);
    }
    Ok(multipliers)
}

// As many multipliers of 0.
fn zero_multipliers(alloc: Global, count: usize) -> Result<Vec<i8>, Memory>
    ensures each { IfOk result (λ multipliers. length multipliers.items ≡ count) }
    ensures zero { IfOk result (λ multipliers. AreZero multipliers.items) }
{
    let mut multipliers = Vec::new(alloc);
    for _vertex in 0..count {
        multipliers.push(0)?;
    }
    Ok(multipliers)
}

// Undoes one step, the last that is left.
fn put_multiplier_back<E: Exact>(
    forest: &Forest<E>,
    links: &[Link],
    undos: &[Undo<E>],
    multipliers: &mut Vec<i8>,
    undo: Undo<E>,
)
    requires listing { IsListingOf forest.now links.now }
    requires refuted { AreRefuted E.parts forest.now links.now (undos.now ++ undo ∷ []) multipliers.old.items }
    ensures { AreRefuted E.parts forest.now links.now undos.now multipliers.new.items }
{
    match undo {
        Undo::Point {
            point,
            row,
            minus,
            of_row,
            of_point,
        } => put_point_multiplier(
            forest,
            links,
            undos,
            multipliers,
            point,
            row,
            minus,
            of_row,
            of_point,
        ),
        Undo::Row {
            row,
            point,
            minus,
            low_of_row,
            high_of_row,
        } => put_row_multiplier(
            forest,
            links,
            undos,
            multipliers,
            row,
            point,
            minus,
            low_of_row,
            high_of_row,
        ),
        Undo::Alone { vertex, value } => put_lone_multiplier(
            forest,
            links,
            undos,
            multipliers,
            vertex,
            value,
        ),
    }
}

// Puts a point back: its end stands in that of its row.
fn put_point_multiplier<E: Exact>(
    forest: &Forest<E>,
    links: &[Link],
    undos: &[Undo<E>],
    multipliers: &mut Vec<i8>,
    point: u32,
    row: u32,
    minus: bool,
    of_row: Bounds<E>,
    of_point: Bounds<E>,
)
    requires listing { IsListingOf forest.now links.now }
    requires refuted { AreRefuted E.parts forest.now links.now (with_point undos.now point row minus of_row of_point) multipliers.old.items }
    ensures { AreRefuted E.parts forest.now links.now undos.now multipliers.new.items }
{
    let by = multipliers[row as usize];
    multipliers[point as usize] = opposite(minus, by);
}

// The negative of a multiplier, or itself for a minus sign.
fn opposite(minus: bool, by: i8) -> i8
    requires { IsUnit by }
    ensures { result ≡ number_with_sign (not minus) by }
{
    if minus { by } else { -by }
}

// Puts a row back: an end of its last point is the point's own, or the row's.
fn put_row_multiplier<E: Exact>(
    forest: &Forest<E>,
    links: &[Link],
    undos: &[Undo<E>],
    multipliers: &mut Vec<i8>,
    row: u32,
    point: u32,
    minus: bool,
    low_of_row: bool,
    high_of_row: bool,
)
    requires listing { IsListingOf forest.now links.now }
    requires refuted { AreRefuted E.parts forest.now links.now (with_row undos.now row point minus low_of_row high_of_row) multipliers.old.items }
    ensures { AreRefuted E.parts forest.now links.now undos.now multipliers.new.items }
{
    let (of_point, of_row) = shares(minus, low_of_row, high_of_row, multipliers[point as usize]);
    multipliers[point as usize] = of_point;
    multipliers[row as usize] = of_row;
}

// Puts a vertex without neighbours back.
fn put_lone_multiplier<E: Exact>(
    forest: &Forest<E>,
    links: &[Link],
    undos: &[Undo<E>],
    multipliers: &mut Vec<i8>,
    vertex: u32,
    value: E,
)
    requires listing { IsListingOf forest.now links.now }
    requires refuted { AreRefuted E.parts forest.now links.now (with_alone undos.now vertex value) multipliers.old.items }
    ensures { AreRefuted E.parts forest.now links.now undos.now multipliers.new.items }
{
    multipliers[vertex as usize] = 0;
}

// The multipliers of a point and of the row that narrowed it, for one of an end of what is left of the point.
fn shares(minus: bool, low_of_row: bool, high_of_row: bool, by: i8) -> (i8, i8)
    requires { IsUnit by }
    ensures { IsShare minus low_of_row high_of_row by result.0 result.1 }
{
    let is_of_row = if by > 0 { low_of_row } else { high_of_row };
    if !is_of_row {
        return (by, 0);
    }
    (0, if minus { -by } else { by })
}
