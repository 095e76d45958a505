// What a fact states, by expanded names: dimensions with their values before names are numbered.
ghost use Rattle.std.specs.Prelude.{◌≡◌};
ghost use Rattle.xc_report.specs.declared.stated.Refusal.TheVariants as Refusal;

use crate::reports::Reading;
use std::alloc::{AllocError, AllocFailed};
use xc_lists::{Items, Memory, Text};
use xc_names::{Expanded, NameId};

/// A dimension as a report names it.
#[derive(Debug, Drop)]
pub enum DimensionName {
    Entity,
    Period,
    Unit,
    Language,
    NoteId,
    Taxonomy(Expanded),
}

/// The value of a dimension as a report states it.
#[derive(Debug, Drop)]
pub enum StatedValue {
    Pair(Text, Text),
    Text(Text),
    Name(Expanded),
    Null,
    Measures(Items<Expanded>, Items<Expanded>),
}

/// A dimension with its value.
#[derive(Debug, Drop)]
pub struct StatedPart {
    pub dimension: DimensionName,
    pub value: StatedValue,
}

/// A fact of a concept that is wanted, with the dimensions of its key in the order of their names.
#[derive(Debug, Drop)]
pub struct StatedFact {
    pub id: Text,
    pub concept: NameId,
    pub parts: Items<StatedPart>,
    pub value: Reading,
    pub decimals: Option<i64>,
}

/// Why a text or a member is not read.
#[derive(Clone, Copy, Debug, PartialEq, Eq)]
pub enum Refusal {
    /// Want of memory.
    Memory,
    /// It is not of the form that is asked for.
    Bad,
}

impl From<Memory> for Refusal {
    ghost from_gives = { λ _ e. e ≡ Refusal.Memory };

    fn from(_: Memory) -> Refusal {
        Refusal::Memory
    }
}

impl From<AllocError> for Refusal {
    ghost from_gives = { λ _ e. e ≡ Refusal.Memory };

    fn from(_: AllocError) -> Refusal {
        Refusal::Memory
    }
}

impl<T: Drop> From<AllocFailed<T>> for Refusal {
    ghost from_gives = { λ _ e. e ≡ Refusal.Memory };

    fn from(_: AllocFailed<T>) -> Refusal {
        Refusal::Memory
    }
}
