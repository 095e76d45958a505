// What follows concepts and types in chains of type names, in maps: concepts by their numbers, types
// by their names.
ghost use Rattle.std.specs.Prelude.{◌≡◌, ◌<◌, ◌≤◌, ◌+◌, ℕ, nat_eq, length, option_map, IfOk};
ghost use Rattle.std.specs.Option.{option_or};
ghost use Rattle.indexmap.specs.IndexMap.{get, spare};
ghost use Rattle.xc_concepts.specs.declared.links.TypeName.{TypeName as Key};
ghost use Rattle.xc_concepts.specs.Steps.Links.{as_name, is_same_type, own_next, next_of, next_name, first_type_of, base_of};

use crate::schema::{Concept, NamedType};
use indexmap::IndexMap;
use std::alloc::Global;
use std::hash::Hash;
use xc_lists::{Memory, Text};
use xc_names::Expanded;

/// The name of a type, as a key.
#[derive(Drop, PartialEq, Eq, Hash)]
pub(crate) struct TypeName {
    pub space: Text,
    pub local: Text,
}

/// The name that follows what has this key, where one does.
#[derive(Drop)]
pub(crate) struct Link<K> {
    pub key: K,
    pub next: Option<TypeName>,
}

pub(crate) type Links<K> = IndexMap<K, Option<TypeName>>;

/// Puts links in for which there is room. What follows a key stays.
pub(crate) fn put_all<K: Eq + Hash + Drop>(links: &mut Links<K>, more: Vec<Link<K>>)
    requires { length more.items ≤ spare links.old }
    ensures { (key : K) → get K.eq links.new key ≡ option_or (get K.eq links.old key) (next_of K.eq key more.items) }
{
    for link in more {
        put(links, link);
    }
}

fn put<K: Eq + Hash + Drop>(links: &mut Links<K>, link: Link<K>)
    requires { 0 < spare links.old }
    ensures put { (key : K) → get K.eq links.new key ≡ option_or (get K.eq links.old key) (own_next K.eq key link) }
    ensures room { spare links.old ≤ spare links.new + 1 }
{
    if links.contains_key(&link.key) {
        return;
    }
    match links.insert(link.key, link.next) {
        Ok(_) => {}
        Err(_) => unreachable!(),
    }
}

/// The first type names of concepts, by their numbers.
pub(crate) fn concept_links(alloc: Global, concepts: &[Concept]) -> Result<Vec<Link<u64>>, Memory>
    ensures { IfOk result (λ links. (number : ℕ) → next_name (next_of nat_eq number links.items) ≡ first_type_of number concepts.now) }
{
    let mut links = Vec::new(alloc);
    for concept in concepts {
        links.push(concept_link(concept)?)?;
    }
    Ok(links)
}

fn concept_link(concept: &Concept) -> Result<Link<u64>, Memory>
    ensures key { IfOk result (λ link. link.key ≡ concept.now.number.0) }
    ensures next { IfOk result (λ link. option_map as_name link.next ≡ concept.now.declared.first_type) }
{
    Ok(Link {
        key: concept.number.0,
        next: optional_key(&concept.declared.first_type)?,
    })
}

/// The names of the bases of types, by their names.
pub(crate) fn type_links(alloc: Global, types: &[NamedType]) -> Result<Vec<Link<TypeName>>, Memory>
    ensures { IfOk result (λ links. (name : Key) → next_name (next_of is_same_type name links.items) ≡ base_of types.now (as_name name)) }
{
    let mut links = Vec::new(alloc);
    for named in types {
        links.push(type_link(named)?)?;
    }
    Ok(links)
}

fn type_link(named: &NamedType) -> Result<Link<TypeName>, Memory>
    ensures key { IfOk result (λ link. as_name link.key ≡ named.now.name) }
    ensures next { IfOk result (λ link. option_map as_name link.next ≡ named.now.base) }
{
    Ok(Link {
        key: key_of(&named.name)?,
        next: optional_key(&named.base)?,
    })
}

// The key of a name, where there is one.
fn optional_key(name: &Option<Expanded>) -> Result<Option<TypeName>, Memory>
    ensures { IfOk result (λ copy. option_map as_name copy ≡ name.now) }
{
    match name {
        Some(name) => Ok(Some(key_of(name)?)),
        None => Ok(None),
    }
}

// The key of a name.
fn key_of(name: &Expanded) -> Result<TypeName, Memory>
    ensures { IfOk result (λ copy. as_name copy ≡ name.now) }
{
    Ok(TypeName {
        space: name.space.copy()?,
        local: name.local.copy()?,
    })
}

/// A name that is the same.
pub(crate) fn copy_key(name: &TypeName) -> Result<TypeName, Memory>
    ensures { IfOk result (λ copy. copy ≡ name.now) }
{
    Ok(TypeName {
        space: name.space.copy()?,
        local: name.local.copy()?,
    })
}
