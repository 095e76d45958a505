ghost use Rattle.std.specs.Prelude.{◌≡◌, ◌<◌, [], List, Some, IfSome, IfOk, OnOk, OnErr, length, slice_get, option_map};
ghost use Rattle.xc_names.specs.Names.{number_of, with_name, AreNumbered, KeepsNumbers};

use crate::expanded::{Expanded, NameId};
use crate::numbers::{Spaces, note, number_in};
use indexmap::IndexMap;
use std::alloc::Global;
use std::marker::Model;
use xc_lists::Memory;

/// Expanded names, each with a number that never changes: its place in the list.
///
/// It keeps a map from namespaces to maps from local parts to numbers beside the list, so that a
/// look-up takes the time of two, whatever is in it, and takes no memory.
#[derive(Drop)]
pub struct Names {
    names: Vec<Expanded>,
    spaces: Spaces,
    alloc: Global,
}

impl Model for Names {
    ghost use Rattle.std.specs.Prelude.{◌≡◌, List, ℕ};
    ghost use Rattle.xc_names.specs.declared.expanded.Expanded.{Expanded as Name};
    ghost use Rattle.xc_names.specs.Names.{number_of, AreNumbered};
    ghost use Rattle.xc_names.specs.Steps.Numbers.{number_in};

    ghost Value = { List Name };

    ghost view = { λ n. n.names.items };

    ghost invariant = { λ n. ((space local : List ℕ) → number_in n.spaces space local ≡ number_of space local n.names.items) × AreNumbered n.names.items };
}

impl Names {
    /// No names.
    pub fn new(alloc: Global) -> Names
        ensures { result ≡ [] }
    {
        Names {
            names: Vec::new(alloc),
            spaces: IndexMap::new(alloc),
            alloc,
        }
    }

    /// The number of the name. A name that is not there yet goes last.
    pub fn number(&mut self, space: &str, local: &str) -> Result<NameId, Memory>
        ensures number { IfOk result (λ id. number_of space.now local.now self.new ≡ Some id.0) }
        ensures within { IfOk result (λ id. id.0 < length self.new) }
        ensures names { OnOk result (self.new ≡ with_name space.now local.now self.old) }
        ensures kept { KeepsNumbers self.old self.new }
        ensures err { OnErr result (self.new ≡ self.old) }
    {
        if let Some(id) = self.find(space, local) {
            return Ok(id);
        }
        let number = self.names.as_slice().len() as u64;
        self.names.reserve(1)?;
        let name = Expanded::of(self.alloc, space, local)?;
        note(&mut self.spaces, self.alloc, space, local, number)?;
        self.names.push_reserved(name);
        Ok(NameId(number))
    }

    /// The number of the name; None exactly where it is not there.
    pub fn find(&self, space: &str, local: &str) -> Option<NameId>
        ensures number { option_map (λ id. id.0) result ≡ number_of space.now local.now self.now }
        ensures within { IfSome result (λ id. id.0 < length self.now) }
        ensures numbered { AreNumbered self.now }
    {
        match number_in(&self.spaces, space, local) {
            Some(number) => Some(NameId(number)),
            None => None,
        }
    }

    /// How many names there are. Each number is below it.
    pub fn count(&self) -> u64
        ensures count { result ≡ length self.now }
        ensures numbered { AreNumbered self.now }
    {
        self.names.len() as u64
    }

    /// The name of a number.
    pub fn name(&self, id: NameId) -> &Expanded
        requires { id.0 < length self.now }
        ensures name { slice_get self.now id.0 ≡ Some result.now }
        ensures number { number_of result.now.space result.now.local self.now ≡ Some id.0 }
    {
        &self.names[id.0 as usize]
    }
}
