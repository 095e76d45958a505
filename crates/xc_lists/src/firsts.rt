ghost use Rattle.std.specs.Prelude.{◌≡◌, ◌++◌, ◌∷◌, [], List, length, unwrap_or, IfOk, OnOk};
ghost use Rattle.std.specs.BTreeMap.{get};
ghost use Rattle.xc_lists.specs.Steps.Indexed.{IsIndex};

use crate::memory::Memory;
use std::alloc::{AllocFailed, Global};
use std::collections::BTreeMap;
use std::marker::Model;

/// A list that finds the first of its items equal to a given one without going through them.
///
/// It keeps an ordered map, so a look-up takes time in the logarithm of its length, whatever a
/// report holds; and for each of its own items the place that was found when it was made.
#[derive(Drop)]
pub struct Firsts<K: Ord> {
    items: Vec<K>,
    places: BTreeMap<K, u64>,
    firsts: Vec<u64>,
}

impl<K: Ord> Model for Firsts<K> {
    ghost use Rattle.std.specs.Prelude.{◌≡◌, List};
    ghost use Rattle.std.specs.BTreeMap.{get};
    ghost use Rattle.std.specs.Coded.{coded_list};
    ghost use Rattle.xc_lists.specs.Firsts.{first_places};
    ghost use Rattle.xc_lists.specs.Steps.Indexed.{IsIndex};

    ghost Value = { List K };

    ghost coded = { coded_list K.code };

    ghost view = { λ f. f.items.items };

    ghost invariant = { λ f. IsIndex K.cmp (get K.cmp f.places) f.items.items
        × (f.firsts.items ≡ first_places K.cmp f.items.items) };
}

impl<K: Ord + Copy> Firsts<K> {
    ghost use Rattle.xc_lists.specs.Firsts.{first_equal, first_or_len, first_places};

    /// The list of these items.
    pub fn of(alloc: Global, items: Vec<K>) -> Result<Firsts<K>, Memory>
        ensures { IfOk result (λ firsts. firsts ≡ items.items) }
    {
        let mut places = BTreeMap::new(alloc);
        let mut firsts = Vec::new(alloc);
        for (at, item) in items.iter().enumerate() {
            firsts.push(note_first(&mut places, item, at as u64)?)?;
        }
        Ok(Firsts {
            items,
            places,
            firsts,
        })
    }

    /// For each item, the place of the first that is equal to it.
    pub fn firsts(&self) -> &[u64]
        ensures { result.now ≡ first_places K.cmp self.now }
    {
        self.firsts.as_slice()
    }

    /// The place of the first item that is equal to this one.
    pub fn first(&self, item: &K) -> Option<u64>
        ensures { result ≡ first_equal K.cmp item.now self.now }
    {
        self.places.get(item).copied()
    }

    /// The same, or the length where no item is equal to it.
    pub fn first_or_len(&self, item: &K) -> u64
        ensures { result ≡ first_or_len K.cmp item.now self.now }
    {
        self.first(item).unwrap_or(self.as_slice().len() as u64)
    }

    /// The items.
    pub fn as_slice(&self) -> &[K]
        ensures { result.now ≡ self.now }
    {
        self.items.as_slice()
    }
}

// The place of the first item that is equal to this one: it is noted where no item before it is.
fn note_first<K: Ord + Copy>(
    places: &mut BTreeMap<K, u64>,
    item: &K,
    place: u64,
) -> Result<u64, AllocFailed<(K, u64)>>
    ensures index { OnOk result ((items : List K) → place ≡ length items
        → IsIndex K.cmp (get K.cmp places.old) items
        → IsIndex K.cmp (get K.cmp places.new) (items ++ item.now ∷ [])) }
    ensures first { IfOk result (λ first. first ≡ unwrap_or (get K.cmp places.old item.now) place) }
{
    if let Some(first) = places.get(item) {
        return Ok(*first);
    }
    places.insert(*item, place)?;
    Ok(place)
}
