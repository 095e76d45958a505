// The arcs of a network, found by the concept from which they lead.
ghost use Rattle.std.specs.Prelude.{◌≡◌, IfOk};
ghost use Rattle.xc_bind.specs.Bindings.{arcs_from};

use std::alloc::Global;
use std::collections::BTreeMap;
use std::marker::Model;
use xc_calc::Arc;
use xc_lists::Memory;
use xc_names::NameId;

/// Arcs, of which those from one concept are found without going through the others.
#[derive(Drop)]
pub(crate) struct ArcsFrom<'a> {
    arcs: &'a [Arc],
    lists: BTreeMap<u64, Vec<Arc>>,
}

impl<'a> Model for ArcsFrom<'a> {
    ghost use Rattle.std.specs.Prelude.{List};
    ghost use Rattle.xc_bind.specs.Steps.Grouped.{AreGrouped};
    ghost use Rattle.xc_calc.specs.declared.arc.Arc.{Arc};

    ghost Value = { List Arc };

    ghost view = { λ by. by.arcs.now };

    ghost invariant = { λ by. AreGrouped by.lists by.arcs.now };
}

impl<'a> ArcsFrom<'a> {
    /// These arcs.
    pub(crate) fn of(alloc: Global, arcs: &'a [Arc]) -> Result<ArcsFrom<'a>, Memory>
        ensures { IfOk result (λ by. by ≡ arcs.now) }
    {
        let mut lists: BTreeMap<u64, Vec<Arc>> = BTreeMap::new(alloc);
        for arc in arcs {
            lists
                .entry(arc.from.0)?
                .or_insert(Vec::new(alloc))
                .push(*arc)?;
        }
        Ok(ArcsFrom { arcs, lists })
    }

    /// The arcs that lead from a concept, in their order.
    pub(crate) fn from_concept(&self, concept: NameId) -> &[Arc]
        ensures { result.now ≡ arcs_from self.now concept }
    {
        match self.lists.get(&concept.0) {
            Some(list) => list.as_slice(),
            None => &[],
        }
    }
}
