// What is known when facts are read.
ghost use Rattle.std.specs.Prelude.{◌≡◌, ℕ, List, length, is_some, option_map, IfOk};
ghost use Rattle.xc_names.specs.Names.{name_of};
ghost use Rattle.xc_report.specs.Steps.{known_view};
ghost use Rattle.xc_report.specs.Wanted.{known_of, number_if_listed, node_of, is_typed};

use std::alloc::Global;
use xc_lists::{Firsts, Memory};
use xc_names::{NameId, Names, Prefixes, Wanted};

/// What prefixes stand for, the names that have numbers, and which of these are wanted.
#[derive(Drop)]
pub struct Known<'a> {
    pub prefixes: &'a Prefixes,
    pub names: &'a Names,
    pub nodes: Firsts<NameId>,
    pub typed: Firsts<NameId>,
}

impl<'a> Known<'a> {
    /// The two lists are indexed, so that a look-up takes time in the logarithm of their lengths.
    pub fn of(
        alloc: Global,
        prefixes: &'a Prefixes,
        names: &'a Names,
        wanted: &Wanted,
    ) -> Result<Known<'a>, Memory>
        ensures { IfOk result (λ known. known_view known ≡ known_of prefixes.now names.now wanted.now) }
    {
        let nodes = Firsts::of(alloc, Vec::from_slice(alloc, wanted.nodes.as_slice())?)?;
        let typed = Firsts::of(alloc, Vec::from_slice(alloc, wanted.typed.as_slice())?)?;
        Ok(Known {
            prefixes,
            names,
            nodes,
            typed,
        })
    }

    /// The number of a concept that is a node.
    pub fn node_of(&self, space: &str, local: &str) -> Option<NameId>
        ensures { result ≡ node_of (known_view self.now) (name_of space.now local.now) }
    {
        number_if_listed(&self.nodes, self.names.find(space, local))
    }

    /// Whether a dimension is typed.
    pub fn is_typed(&self, space: &str, local: &str) -> bool
        ensures { result ≡ is_typed (known_view self.now) (name_of space.now local.now) }
    {
        number_if_listed(&self.typed, self.names.find(space, local)).is_some()
    }
}

// A number, where it is listed.
fn number_if_listed(ids: &Firsts<NameId>, id: Option<NameId>) -> Option<NameId>
    ensures { result ≡ number_if_listed ids.now (option_map (λ id. id.0) id) }
{
    match id {
        Some(id) => if ids.first(&id).is_some() {
            Some(id)
        } else {
            None
        },
        None => None,
    }
}
