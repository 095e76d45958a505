// What a fact says of its concept beside its value: dimensions, each with a value.
ghost use Rattle.std.specs.Prelude.{◌≡◌, IfOk};
ghost use Rattle.xc_report.specs.Dimensions.{IsAscending};

use std::alloc::Global;
use std::collections::BTreeMap;
use std::marker::Model;
use xc_lists::{Items, Memory, Text};
use xc_names::NameId;

/// A dimension of a fact beside its concept: one of the five that xBRL-JSON 1.0 names, or one of a
/// taxonomy. They are ordered as listed, and those of taxonomies by number.
#[derive(Clone, Copy, Debug, PartialEq, Eq, PartialOrd, Ord, Hash)]
pub enum Dimension {
    Entity,
    Period,
    Unit,
    Language,
    NoteId,
    Taxonomy(NameId),
}

/// The value of a dimension.
#[derive(Debug, Drop, PartialEq, Eq, Hash)]
pub enum DimValue {
    /// An entity: the URI of its scheme, and its identifier.
    Pair(Text, Text),
    /// A period in its normal form, a language, a note's id, or a value that is a text as it is.
    Text(Text),
    /// A member of a taxonomy.
    Name(NameId),
    /// A typed dimension that is nil.
    Null,
    /// A unit: the measures above and below the line, each list ascending by number.
    Measures(Items<NameId>, Items<NameId>),
}

/// The dimensions of a fact but its concept, each once and ascending.
#[derive(Debug, Drop, PartialEq, Eq, Hash)]
pub struct Key {
    parts: Items<(Dimension, DimValue)>,
}

impl Model for Key {
    ghost use Rattle.std.specs.Prelude.{List};
    ghost use Rattle.xc_report.specs.declared.dimensions.Dimension.{Dimension};
    ghost use Rattle.xc_report.specs.declared.dimensions.DimValue.{DimValue};

    ghost Value = { List (Dimension × DimValue) };

    ghost use Rattle.xc_report.specs.Dimensions.{IsAscending};

    ghost view = { λ k. k.parts };

    ghost invariant = { λ k. IsAscending k.parts };

    ghost inverse = { λ v. record { parts = v } };
}

impl Key {
    /// The dimensions of a map with their values.
    pub fn of(alloc: Global, map: BTreeMap<Dimension, DimValue>) -> Result<Key, Memory>
        ensures { IfOk result (λ key. key ≡ map.entries) }
    {
        let mut parts = Vec::new(alloc);
        for part in map {
            parts.push(part)?;
        }
        Ok(Key {
            parts: Items::of(parts),
        })
    }

    /// The dimensions with their values, ascending by dimension.
    pub fn as_slice(&self) -> &[(Dimension, DimValue)]
        ensures parts { result.now ≡ self.now }
        ensures ascending { IsAscending result.now }
    {
        self.parts.as_slice()
    }
}
