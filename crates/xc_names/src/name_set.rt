// Numbers of names that are gathered.
ghost use Rattle.std.specs.Prelude.{◌≡◌, ◌==◌, ◌||◌, ℕ, [], map, IfOk, OnErr, OnOk};
ghost use Rattle.std.specs.List.Sorted.{IsStrictlySortedBy};
ghost use Rattle.std.specs.Ordering.{nat_cmp};
ghost use Rattle.xc_names.specs.NameSets.{is_among};

use crate::expanded::NameId;
use std::alloc::Global;
use std::collections::BTreeSet;
use std::marker::Model;
use xc_lists::Memory;

/// Numbers of names, each once.
#[derive(Debug, Drop)]
pub struct NameSet {
    numbers: BTreeSet<u64>,
}

impl Model for NameSet {
    ghost use Rattle.std.specs.Prelude.{List, ℕ};

    ghost Value = { List ℕ };

    ghost view = { λ s. s.numbers.keys };
}

impl NameSet {
    /// No numbers so far.
    pub fn new(alloc: Global) -> NameSet
        ensures { result ≡ [] }
    {
        NameSet {
            numbers: BTreeSet::new(alloc),
        }
    }

    /// Puts the number of a name in, unless it is there.
    pub fn insert(&mut self, id: NameId) -> Result<(), Memory>
        ensures more { OnOk result ((n : ℕ) → is_among self.new n ≡ (is_among self.old n || (id.0 == n))) }
        ensures err { OnErr result (self.new ≡ self.old) }
    {
        self.numbers.insert(id.0)?;
        Ok(())
    }

    /// The numbers, as those of names, each once and ascending.
    pub fn ids(&self, alloc: Global) -> Result<Vec<NameId>, Memory>
        ensures same { IfOk result (λ ids. map (λ id. id.0) ids.items ≡ self.now) }
        ensures ascending { IfOk result (λ ids. IsStrictlySortedBy nat_cmp self.now) }
    {
        let mut list = Vec::new(alloc);
        for number in &self.numbers {
            list.push(NameId(*number))?;
        }
        Ok(list)
    }
}
