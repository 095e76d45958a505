// The points whose concept is a total of a network.
ghost use Rattle.std.specs.Prelude.{◌≡◌, ◌==◌, ◌||◌, ℕ, IfOk, OnOk};
ghost use Rattle.std.specs.List.{list_any};
ghost use Rattle.xc_bind.specs.Bindings.{leads_from};
ghost use Rattle.xc_bind.specs.Steps.Totals.{is_total};
ghost use Rattle.xc_names.specs.NameSets.{is_among};
ghost use Rattle.xc_names.specs.declared.expanded.NameId.{NameId};

use crate::point_index::PointIndex;
use std::alloc::Global;
use std::collections::BTreeSet;
use xc_calc::Arc;
use xc_lists::Memory;
use xc_names::{NameId, NameSet};

/// The numbers of the points from whose concepts one of these arcs leads, ascending.
pub(crate) fn totals_of(
    alloc: Global,
    points: &PointIndex<'_>,
    arcs: &[Arc],
) -> Result<BTreeSet<usize>, Memory>
    ensures { IfOk result (λ totals. (k : ℕ) → is_among totals.keys k ≡ is_total points.now arcs.now k) }
{
    let mut totals = BTreeSet::new(alloc);
    for concept in total_concepts(alloc, arcs)?.as_slice() {
        put_all(&mut totals, points.numbers_of(*concept))?;
    }
    Ok(totals)
}

// Puts numbers in, unless they are there.
fn put_all(totals: &mut BTreeSet<usize>, numbers: &[usize]) -> Result<(), Memory>
    ensures { OnOk result ((k : ℕ) → is_among totals.new.keys k ≡ (is_among totals.old.keys k || is_among numbers.now k)) }
{
    for number in numbers {
        totals.insert(*number)?;
    }
    Ok(())
}

// The concepts from which these arcs lead, each once.
fn total_concepts(alloc: Global, arcs: &[Arc]) -> Result<Vec<NameId>, Memory>
    ensures { IfOk result (λ concepts. (c : NameId) → list_any (λ id. id.0 == c.0) concepts.items ≡ list_any (leads_from c) arcs.now) }
{
    let mut concepts = NameSet::new(alloc);
    for arc in arcs {
        concepts.insert(arc.from)?;
    }
    concepts.ids(alloc)
}
