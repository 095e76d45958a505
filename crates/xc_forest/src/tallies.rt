// How many edges each vertex of a forest has. The points are vertices 0 to n - 1, and row i is vertex n + i.
ghost use Rattle.std.specs.Prelude.{◌≡◌, ℕ, ◌+◌, ◌<◌, ◌≤◌, ◌^◌, ◌∷◌, [], ◌++◌, Bool, IfOk, length, drop, slice_index_or, slice_set, if◌then◌else◌};
ghost use Rattle.xc_forest.specs.Forests.{AreRows};
ghost use Rattle.xc_forest.specs.Steps.Edges.{Edge, AreFew, AreTallies, AreTalliesWith, IsTally, edges_from, edges_of_row};
ghost use Rattle.xc_forest.specs.Steps.Counted.{tally_with_edge, tally_at, HasRoomAt};

use std::alloc::Global;
use xc_lists::{Items, Memory};

/// What is left at a vertex: how many edges, the sum of their other ends, and how many have a minus sign.
#[derive(Clone, Copy, Drop)]
pub(crate) struct Tally {
    pub(crate) degree: u64,
    pub(crate) others: u128,
    pub(crate) minuses: u64,
}

impl Tally {
    /// That of a vertex without edges.
    pub(crate) fn none() -> Tally
        ensures { result ≡ record { degree = 0; others = 0; minuses = 0 } }
    {
        Tally {
            degree: 0,
            others: 0,
            minuses: 0,
        }
    }
}

/// The tallies of all points and rows.
pub(crate) fn tallies(
    alloc: Global,
    points: u32,
    rows: &[Items<(u32, bool)>],
) -> Result<Vec<Tally>, Memory>
    requires points { points < 2 ^ 31 }
    requires few { length rows.now < 2 ^ 31 }
    requires rows { AreRows points rows.now }
    ensures each { IfOk result (λ tallies. length tallies.items ≡ points + length rows.now) }
    ensures tallies { IfOk result (λ tallies. AreTallies (edges_from points rows.now) tallies.items) }
{
    let mut tallies = no_tallies(alloc, points as usize + rows.len())?;
    for i in 0..rows.len() {
        tally_row(tallies.as_mut_slice(), points, rows, i);
    }
    Ok(tallies)
}

// As many tallies without edges.
fn no_tallies(alloc: Global, count: usize) -> Result<Vec<Tally>, Memory>
    ensures each { IfOk result (λ tallies. length tallies.items ≡ count) }
    ensures tallies { IfOk result (λ tallies. AreTallies [] tallies.items) }
{
    let mut tallies = Vec::new(alloc);
    for _vertex in 0..count {
        tallies.push(Tally::none())?;
    }
    Ok(tallies)
}

// Counts the edges of row i.
fn tally_row(tallies: &mut [Tally], points: u32, rows: &[Items<(u32, bool)>], i: usize)
    requires there { i < length rows.now }
    requires few { length rows.now < 2 ^ 31 }
    requires points { points < 2 ^ 31 }
    requires rows { AreRows points rows.now }
    requires each { length tallies.old ≡ points + length rows.now }
    requires tallies { AreTalliesWith (edges_from points rows.now) (edges_from (points + i) (drop i rows.now)) tallies.old }
    ensures each { length tallies.new ≡ length tallies.old }
    ensures tallies { AreTalliesWith (edges_from points rows.now) (edges_from (points + (i + 1)) (drop (i + 1) rows.now)) tallies.new }
{
    let row = points + i as u32;
    for (point, minus) in rows[i].as_slice() {
        tally_end(tallies, *point, row, *minus);
        tally_end(tallies, row, *point, *minus);
    }
}

// Counts one end of an edge.
fn tally_end(tallies: &mut [Tally], vertex: u32, other: u32, minus: bool)
    requires there { vertex < length tallies.old }
    requires room { HasRoomAt tallies.old vertex other minus }
    ensures { tallies.new ≡ slice_set tallies.old vertex (tally_with_edge (tally_at tallies.old vertex) other minus) }
{
    let tally = &mut tallies[vertex as usize];
    tally.degree += 1;
    tally.others += other as u128;
    if minus {
        tally.minuses += 1;
    }
}
