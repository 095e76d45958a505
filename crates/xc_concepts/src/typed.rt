// The typed concepts of schemas.
ghost use Rattle.std.specs.Prelude.{◌≡◌, ◌||◌, ℕ, IfOk, OnOk};
ghost use Rattle.std.specs.List.{list_any};
ghost use Rattle.xc_concepts.specs.Held.{is_typed, is_typed_as};
ghost use Rattle.xc_names.specs.NameSets.{is_among};

use crate::schema::{Concept, Schema};
use std::alloc::Global;
use xc_lists::Memory;
use xc_names::{NameId, NameSet};

/// Whether a typed concept has this number.
pub(crate) fn is_typed(schemas: &[Schema], number: NameId) -> bool
    ensures { result ≡ is_typed schemas.now number.0 }
{
    one_has_typed(schemas, number)
}

fn one_has_typed(schemas: &[Schema], number: NameId) -> bool
    ensures { result ≡ list_any (λ s. list_any (is_typed_as number.0) s.concepts) schemas.now }
{
    schemas
        .iter()
        .any(|schema| has_typed(schema.concepts.as_slice(), number))
}

fn has_typed(concepts: &[Concept], number: NameId) -> bool
    ensures { result ≡ list_any (is_typed_as number.0) concepts.now }
{
    concepts.iter().any(|concept| concept.number.0 == number.0 && concept.declared.typed)
}

/// The numbers of the typed concepts.
pub(crate) fn typed_numbers(alloc: Global, schemas: &[Schema]) -> Result<NameSet, Memory>
    ensures { IfOk result (λ numbers. (n : ℕ) → is_among numbers n ≡ is_typed schemas.now n) }
{
    let mut numbers = NameSet::new(alloc);
    for schema in schemas {
        note_all_typed(&mut numbers, schema.concepts.as_slice())?;
    }
    Ok(numbers)
}

fn note_all_typed(numbers: &mut NameSet, concepts: &[Concept]) -> Result<(), Memory>
    ensures { OnOk result ((n : ℕ) → is_among numbers.new n ≡ (is_among numbers.old n || list_any (is_typed_as n) concepts.now)) }
{
    for concept in concepts {
        note_typed(numbers, concept)?;
    }
    Ok(())
}

fn note_typed(numbers: &mut NameSet, concept: &Concept) -> Result<(), Memory>
    ensures { OnOk result ((n : ℕ) → is_among numbers.new n ≡ (is_among numbers.old n || is_typed_as n concept.now)) }
{
    if concept.declared.typed {
        numbers.insert(concept.number)?;
    }
    Ok(())
}
