// Keys, each with a number.
ghost use Rattle.std.specs.Prelude.{◌≡◌, ◌≤◌, [], length, vec_capacity, IfOk, OnOk, OnErr};
ghost use Rattle.xc_report.specs.Dimensions.{with_key, key_number};
ghost use Rattle.xc_report.specs.Reports.{StandOnce};

use crate::dimensions::Key;
use indexmap::IndexSet;
use std::alloc::Global;
use std::marker::Model;
use xc_lists::Memory;

/// Keys, of which no two are equal, each with a number: its place in the list.
#[derive(Drop)]
pub struct Keys {
    keys: IndexSet<Key>,
    // Empty, with room for as many keys as there are.
    room: Vec<Key>,
}

impl Model for Keys {
    ghost use Rattle.std.specs.Prelude.{List};
    ghost use Rattle.xc_report.specs.declared.dimensions.Key.{Key};
    ghost use Rattle.xc_report.specs.Steps.{HasRoom};

    ghost Value = { List Key };

    ghost view = { λ k. k.keys.keys };

    ghost invariant = { λ k. HasRoom k.keys.keys k.room };
}

impl Keys {
    /// No keys.
    pub fn new(alloc: Global) -> Keys
        ensures { result ≡ [] }
    {
        Keys {
            keys: IndexSet::new(alloc),
            room: Vec::new(alloc),
        }
    }

    /// The number of the key. A key that is not there yet goes last.
    pub fn place(&mut self, key: Key) -> Result<u64, Memory>
        ensures number { IfOk result (λ number. number ≡ key_number self.new key) }
        ensures keys { OnOk result (self.new ≡ with_key self.old key) }
        ensures err { OnErr result (self.new ≡ self.old) }
    {
        self.room.reserve(self.keys.len() + 1)?;
        let (place, _) = self.keys.insert_full(key)?;
        Ok(place as u64)
    }

    /// The keys in the order of their numbers.
    pub fn into_list(self) -> Vec<Key>
        ensures keys { result.items ≡ self }
        ensures once { StandOnce result.items }
    {
        list_of_keys(self.keys, self.room)
    }
}

// The keys of a set, in a list that has room for them.
fn list_of_keys(keys: IndexSet<Key>, room: Vec<Key>) -> Vec<Key>
    requires empty { room.items ≡ [] }
    requires room { length keys.keys ≤ vec_capacity room }
    ensures keys { result.items ≡ keys.keys }
    ensures once { StandOnce result.items }
{
    let mut list = room;
    for key in keys {
        list.push_reserved(key);
    }
    list
}
