// The order in which the vertices of a forest are taken away: each has one neighbour left at most.
ghost use Rattle.std.specs.Prelude.{◌≡◌, ℕ, ◌+◌, ◌<◌, ◌≤◌, ◌^◌, IfOk, length, slice_index_or};
ghost use Rattle.xc_forest.specs.Forests.{AreRows, HasNoCycle};
ghost use Rattle.xc_forest.specs.Steps.Edges.{Edge, AreProper, AreTallies, IsEdgeIn, IsPeeled, edges_from, degree};
ghost use Rattle.xc_forest.specs.Steps.Links.{AreLinksOf, IsLinkAt, IsListing, AreLeaves, graph_of};

use crate::tallies::{Tally, tallies};
use std::alloc::Global;
use xc_lists::{Items, Memory};

/// A vertex with its last neighbour, when it is taken away.
#[derive(Clone, Copy, Drop)]
pub(crate) struct Link {
    pub(crate) vertex: u32,
    pub(crate) next: u32,
    /// Whether the point of the two has a minus sign in the row.
    pub(crate) minus: bool,
    /// Whether no neighbour is left; then `next` says nothing.
    pub(crate) is_alone: bool,
}

/// All points and rows, so that each is next to at most one later one.
pub(crate) fn links(
    alloc: Global,
    points: u32,
    rows: &[Items<(u32, bool)>],
) -> Result<Vec<Link>, Memory>
    requires points { points < 2 ^ 31 }
    requires few { length rows.now < 2 ^ 31 }
    requires rows { AreRows points rows.now }
    requires no_cycle { HasNoCycle points rows.now }
    ensures { IfOk result (λ links. IsListing (graph_of points rows.now) (points + length rows.now) links.items) }
{
    let mut tallies = tallies(alloc, points, rows)?;
    let mut order = leaves(alloc, tallies.as_slice())?;
    let mut links = Vec::new(alloc);
    let mut k = 0;
    while k < order.len() {
        let link = peel_vertex(&mut order, tallies.as_mut_slice(), k, points, rows)?;
        links.push(link)?;
        k += 1;
    }
    Ok(links)
}

// The vertices with one edge at most.
fn leaves(alloc: Global, tallies: &[Tally]) -> Result<Vec<u32>, Memory>
    requires { length tallies.now < 2 ^ 32 }
    ensures { IfOk result (λ order. AreLeaves tallies.now (length tallies.now) order.items) }
{
    let mut order = Vec::new(alloc);
    for vertex in 0..tallies.len() {
        if tallies[vertex].degree <= 1 {
            order.push(vertex as u32)?;
        }
    }
    Ok(order)
}

// Takes away vertex k of the order. A vertex that it leaves with one edge is put at the end of the order.
fn peel_vertex(
    order: &mut Vec<u32>,
    tallies: &mut [Tally],
    k: usize,
    points: u32,
    rows: &[Items<(u32, bool)>],
) -> Result<Link, Memory>
    requires known { k < length order.old.items }
    requires few { length tallies.old < 2 ^ 32 }
    requires each { length tallies.old ≡ points + length rows.now }
    requires rows { AreRows points rows.now }
    requires peeled { IsPeeled (edges_from points rows.now) order.old.items k tallies.old }
    ensures peeled { IfOk result (λ link. IsPeeled (edges_from points rows.now) order.new.items (k + 1) tallies.new) }
    ensures each { length tallies.new ≡ length tallies.old }
    ensures same { IfOk result (λ link. (j : ℕ) → j < length order.old.items → slice_index_or order.new.items j 0 ≡ slice_index_or order.old.items j 0) }
    ensures longer { IfOk result (λ link. length order.old.items ≤ length order.new.items) }
    ensures link { IfOk result (IsLinkAt (edges_from points rows.now) order.old.items k) }
{
    let vertex = order[k];
    let tally = tallies[vertex as usize];
    if tally.degree == 0 {
        return Ok(Link {
            vertex,
            next: vertex,
            minus: false,
            is_alone: true,
        });
    }
    let next = tally.others as u32;
    tallies[vertex as usize] = Tally {
        degree: 0,
        others: 0,
        minuses: 0,
    };
    let other = &mut tallies[next as usize];
    other.degree -= 1;
    other.others -= vertex as u128;
    other.minuses -= tally.minuses;
    if other.degree == 1 {
        order.push(next)?;
    }
    Ok(Link {
        vertex,
        next,
        minus: tally.minuses == 1,
        is_alone: false,
    })
}
