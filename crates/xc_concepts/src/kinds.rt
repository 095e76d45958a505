// The kinds of types by their chains of type names, each worked out once and kept under its name.
ghost use Rattle.std.specs.Prelude.{◌≡◌, List, length, IfOk, OnOk};
ghost use Rattle.xc_concepts.specs.Chains.{IsKindBy, kind_from};
ghost use Rattle.xc_concepts.specs.Declarations.{types_in};
ghost use Rattle.xc_concepts.specs.Steps.Kinds.{AreKinds};
ghost use Rattle.xc_concepts.specs.Steps.Links.{as_name, AreBases};
ghost use Rattle.xc_concepts.specs.declared.schema.NamedType.{NamedType};

use crate::kind::{Kind, base_name, count_types, kind_of_last};
use crate::links::{Links, TypeName, copy_key};
use crate::schema::Schema;
use indexmap::IndexMap;
use std::alloc::Global;
use xc_lists::Memory;

pub(crate) type Kinds = IndexMap<TypeName, Kind>;

/// The kind by the chain of type names that begins with this one.
pub(crate) fn kind_by(
    schemas: &[Schema],
    bases: &Links<TypeName>,
    kinds: &Kinds,
    first: &TypeName,
) -> Kind
    requires bases { AreBases (types_in schemas.now) bases.now }
    requires kinds { AreKinds (types_in schemas.now) kinds.now }
    ensures chain { IsKindBy (types_in schemas.now) (as_name first.now) result }
    ensures computed { result ≡ kind_from (types_in schemas.now) (as_name first.now) }
{
    if let Some(kind) = kinds.get(first) {
        return *kind;
    }
    match base_name(bases, first) {
        Some(_) => walk(bases, kinds, count_types(schemas), first).0,
        None => kind_of_last(bases, first),
    }
}

/// The kinds of all types. Each chain is followed up to the first name whose kind is known.
pub(crate) fn kinds_of(
    alloc: Global,
    schemas: &[Schema],
    bases: &Links<TypeName>,
) -> Result<Kinds, Memory>
    requires { AreBases (types_in schemas.now) bases.now }
    ensures { IfOk result (λ kinds. AreKinds (types_in schemas.now) kinds) }
{
    let count = count_types(schemas);
    let mut kinds = IndexMap::new(alloc);
    for name in bases.keys() {
        note_chain(&mut kinds, bases, count, name)?;
    }
    Ok(kinds)
}

// Notes the kinds of the names of a chain, up to the first that is known.
fn note_chain(
    kinds: &mut Kinds,
    bases: &Links<TypeName>,
    count: u128,
    first: &TypeName,
) -> Result<(), Memory>
    ensures { OnOk result ((types : List NamedType) → AreBases types bases.now → AreKinds types kinds.old → count ≡ length types → AreKinds types kinds.new) }
{
    let (kind, steps) = walk(bases, kinds, count, first);
    note_kind(kinds, bases, first, kind, steps)?;
    Ok(())
}

// The kind by a chain, and how many of its names are followed by another before it is known.
//
// A name is marked that moves on, each time twice as far. A chain that comes to it again leads back
// to itself. One that has more names than there are types has one of them twice.
fn walk(bases: &Links<TypeName>, kinds: &Kinds, count: u128, first: &TypeName) -> (Kind, u128)
    ensures { (types : List NamedType) → AreBases types bases.now → AreKinds types kinds.now → count ≡ length types → IsKindBy types (as_name first.now) result.0 }
{
    let mut name = first;
    let mut mark = first;
    let mut marked: u128 = 0;
    let mut steps: u128 = 0;
    while let Some(base) = base_name(bases, name) {
        if let Some(kind) = kinds.get(name) {
            return (*kind, steps);
        }
        if steps == count {
            return (Kind::Unknown, steps);
        }
        steps += 1;
        if base == mark {
            return (Kind::Unknown, steps);
        }
        if steps / 2 >= marked {
            mark = base;
            marked = steps;
        }
        name = base;
    }
    (kind_of_last(bases, name), steps)
}

// Notes a kind for so many names of a chain.
fn note_kind(
    kinds: &mut Kinds,
    bases: &Links<TypeName>,
    first: &TypeName,
    kind: Kind,
    steps: u128,
) -> Result<(), Memory>
    ensures { OnOk result ((types : List NamedType) → AreBases types bases.now → AreKinds types kinds.old → kind ≡ kind_from types (as_name first.now) → AreKinds types kinds.new) }
{
    let mut name = first;
    let mut left = steps;
    while left > 0 {
        kinds.insert(copy_key(name)?, kind)?;
        left -= 1;
        if let Some(base) = base_name(bases, name) {
            name = base;
        }
    }
    Ok(())
}
