// Which facts belong to one point.
ghost use Rattle.std.specs.Prelude.{◌≡◌, ◌++◌, ◌∷◌, [], ◌<◌, ◌^◌, All, IfOk, length, map};
ghost use Rattle.xc_points.specs.Steps.Members.{fact_place, firsts_of, members_by};

use crate::types::Place;
use std::alloc::Global;
use std::marker::Model;
use xc_lists::{Firsts, Items, Memory};
use xc_report::Fact;

/// The numbers of facts that belong together.
#[derive(Debug, Drop)]
pub struct Members {
    numbers: Vec<u32>,
}

impl Model for Members {
    ghost use Rattle.std.specs.Prelude.{List, ℕ};

    ghost Value = { List ℕ };

    ghost view = { λ m. m.numbers.items };
}

impl Members {
    /// None so far.
    pub fn new(alloc: Global) -> Members
        ensures { result ≡ [] }
    {
        Members {
            numbers: Vec::new(alloc),
        }
    }

    /// Puts the number of one more fact last.
    pub fn push(&mut self, number: u32) -> Result<(), Memory>
        ensures { IfOk result (λ _. self.new ≡ self.old ++ number ∷ []) }
    {
        self.numbers.push(number)?;
        Ok(())
    }

    /// The numbers.
    pub fn as_slice(&self) -> &[u32]
        ensures { result.now ≡ self.now }
    {
        self.numbers.as_slice()
    }

    /// The same in a list that is lent.
    pub fn into_items(self) -> Items<u32>
        ensures { result ≡ self }
    {
        Items::of(self.numbers)
    }
}

/// For each fact the numbers of all facts of its point, ascending, where it is the first of them; and none where it
/// is not.
pub fn members_of(alloc: Global, facts: &[Fact]) -> Result<Vec<Members>, Memory>
    requires { length facts.now < 2 ^ 31 }
    ensures { IfOk result (λ members. members.items ≡ members_by (firsts_of facts.now)) }
{
    let places = Firsts::of(alloc, places_of(alloc, facts)?)?;
    members_by_first(alloc, places.firsts())
}

// The place of each fact.
fn places_of(alloc: Global, facts: &[Fact]) -> Result<Vec<Place>, Memory>
    ensures { IfOk result (λ places. places.items ≡ map fact_place facts.now) }
{
    let mut places = Vec::new(alloc);
    for fact in facts {
        places.push(Place {
            concept: fact.concept,
            key: fact.key,
        })?;
    }
    Ok(places)
}

// Puts the number of each fact to those of its first.
fn members_by_first(alloc: Global, firsts: &[u64]) -> Result<Vec<Members>, Memory>
    requires few { length firsts.now < 2 ^ 31 }
    requires inside { All (λ first. first < length firsts.now) firsts.now }
    ensures { IfOk result (λ members. members.items ≡ members_by firsts.now) }
{
    let mut members = no_members(alloc, firsts)?;
    for (fact, first) in firsts.iter().enumerate() {
        members[*first as usize].push(fact as u32)?;
    }
    Ok(members)
}

// No numbers, for each fact.
fn no_members(alloc: Global, firsts: &[u64]) -> Result<Vec<Members>, Memory>
    ensures { IfOk result (λ none. none.items ≡ map (λ _. []) firsts.now) }
{
    let mut none = Vec::new(alloc);
    for _first in firsts {
        none.push(Members::new(alloc))?;
    }
    Ok(none)
}
