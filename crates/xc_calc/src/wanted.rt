// The concepts at the ends of arcs.
ghost use Rattle.std.specs.Prelude.{◌≡◌, ◌||◌, ℕ, map, IfOk, OnOk};
ghost use Rattle.xc_calc.specs.Wanted.{is_end, is_node, AreNodes};
ghost use Rattle.xc_names.specs.NameSets.{is_among};

use crate::arc::{Arc, ListedArc};
use std::alloc::Global;
use xc_lists::Memory;
use xc_names::{NameId, NameSet};

// Notes the concepts at both ends of an arc.
fn note(numbers: &mut NameSet, arc: Arc) -> Result<(), Memory>
    ensures { OnOk result ((n : ℕ) → is_among numbers.new n ≡ (is_among numbers.old n || is_end n arc)) }
{
    numbers.insert(arc.from)?;
    numbers.insert(arc.to)?;
    Ok(())
}

// The numbers of the concepts at the ends of arcs.
fn numbers_of(alloc: Global, arcs: &[ListedArc]) -> Result<NameSet, Memory>
    ensures { IfOk result (λ numbers. (n : ℕ) → is_among numbers n ≡ is_node arcs.now n) }
{
    let mut numbers = NameSet::new(alloc);
    for listed in arcs {
        note(&mut numbers, listed.arc)?;
    }
    Ok(numbers)
}

/// The concepts at the ends of arcs, each once and ascending by number.
pub(crate) fn nodes_of(alloc: Global, arcs: &[ListedArc]) -> Result<Vec<NameId>, Memory>
    ensures { IfOk result (λ ids. AreNodes arcs.now (map (λ id. id.0) ids.items)) }
{
    numbers_of(alloc, arcs)?.ids(alloc)
}
