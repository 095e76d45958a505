// What settles a forest.
ghost use Rattle.std.specs.Prelude.{◌≡◌, ℕ, ◌+◌, ◌<◌, ◌^◌, IfOk, length, map};
ghost use Rattle.xc_forest.specs.Forests.{AreRanges, AreRows, HasNoCycle, HasRoom, ranges_of};
ghost use Rattle.xc_forest.specs.Settled.{Settles};
ghost use Rattle.xc_forest.specs.Steps.Links.{IsListingOf};
ghost use Rattle.xc_forest.specs.Steps.Trails.{AreAllTaken, IsClash};

use crate::links::{Link, links};
use crate::multipliers::multipliers;
use crate::narrowing::{first_spans, take_vertices};
use crate::types::{Forest, Settled};
use crate::undos::{Clash, Undo};
use crate::values::values;
use std::alloc::Global;
use xc_frac::Exact;
use xc_lists::{Items, Memory};

/// Settles a forest: values that lie in all ranges and meet all rows, each of them a signed sum of ends; or
/// multipliers that contradict it. Nothing else is answered but want of memory.
///
/// Every row names ranges, each once; points and rows make no cycle; each range has both its ends and some value;
/// and no sum or difference of two signed sums passes.
pub fn propagate<E: Exact>(alloc: Global, forest: &Forest<E>) -> Result<Settled<E>, Memory>
    requires points { length forest.now.ranges < 2 ^ 31 }
    requires few { length forest.now.rows < 2 ^ 31 }
    requires rows { AreRows (length forest.now.ranges) forest.now.rows }
    requires no_cycle { HasNoCycle (length forest.now.ranges) forest.now.rows }
    requires ranges { AreRanges (ranges_of E.parts forest.now.ranges) }
    requires room { HasRoom E.parts E.passes (ranges_of E.parts forest.now.ranges) }
    ensures { IfOk result (Settles E.parts forest.now) }
{
    let points = forest.ranges.as_slice().len() as u32;
    let links = links(alloc, points, forest.rows.as_slice())?;
    settle_in_order(alloc, forest, links.as_slice())
}

// The same, by the order of the vertices.
fn settle_in_order<E: Exact>(
    alloc: Global,
    forest: &Forest<E>,
    links: &[Link],
) -> Result<Settled<E>, Memory>
    requires points { length forest.now.ranges < 2 ^ 31 }
    requires few { length forest.now.rows < 2 ^ 31 }
    requires rows { AreRows (length forest.now.ranges) forest.now.rows }
    requires listing { IsListingOf forest.now links.now }
    requires ranges { AreRanges (ranges_of E.parts forest.now.ranges) }
    requires room { HasRoom E.parts E.passes (ranges_of E.parts forest.now.ranges) }
    ensures { IfOk result (Settles E.parts forest.now) }
{
    let mut spans = first_spans(alloc, forest)?;
    let mut undos = Vec::new(alloc);
    match take_vertices(forest, links, &mut spans, &mut undos)? {
        None => settle_by_values(alloc, forest, links, undos),
        Some(clash) => settle_by_multipliers(alloc, forest, links, undos, clash),
    }
}

// The values of the points, once no vertex is left.
fn settle_by_values<E: Exact>(
    alloc: Global,
    forest: &Forest<E>,
    links: &[Link],
    undos: Vec<Undo<E>>,
) -> Result<Settled<E>, Memory>
    requires points { length forest.now.ranges < 2 ^ 31 }
    requires few { length forest.now.rows < 2 ^ 31 }
    requires rows { AreRows (length forest.now.ranges) forest.now.rows }
    requires listing { IsListingOf forest.now links.now }
    requires ranges { AreRanges (ranges_of E.parts forest.now.ranges) }
    requires room { HasRoom E.parts E.passes (ranges_of E.parts forest.now.ranges) }
    requires taken { AreAllTaken E.parts forest.now links.now undos.items }
    ensures { IfOk result (Settles E.parts forest.now) }
{
    let mut values = values(alloc, forest, links, undos)?;
    values.truncate(forest.ranges.as_slice().len());
    Ok(Settled::Feasible(Items::of(values)))
}

// The multipliers of rows and points that contradict, from those of two vertices whose spans do not meet.
fn settle_by_multipliers<E: Exact>(
    alloc: Global,
    forest: &Forest<E>,
    links: &[Link],
    undos: Vec<Undo<E>>,
    clash: Clash,
) -> Result<Settled<E>, Memory>
    requires points { length forest.now.ranges < 2 ^ 31 }
    requires few { length forest.now.rows < 2 ^ 31 }
    requires rows { AreRows (length forest.now.ranges) forest.now.rows }
    requires listing { IsListingOf forest.now links.now }
    requires clash { IsClash E.parts forest.now links.now undos.items clash }
    ensures { IfOk result (Settles E.parts forest.now) }
{
    let mut ends = multipliers(alloc, forest, links, undos, clash)?;
    let points = forest.ranges.as_slice().len();
    let rows = ends.split_off(points)?;
    Ok(Settled::Infeasible {
        rows: Items::of(rows),
        ends: Items::of(ends),
    })
}
