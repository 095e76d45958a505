// The rules that a schema is held to, and the first that it breaks.
ghost use Rattle.std.specs.Prelude.{◌≡◌, ◌<◌, ◌||◌, ℕ, List, length, option_map, IfOk, OnOk, IfSome};
ghost use Rattle.std.specs.List.{list_any};
ghost use Rattle.xc_lists.specs.Places.{places, first_place, first_given, least};
ghost use Rattle.xc_concepts.specs.Held.{AreHeld};
ghost use Rattle.xc_concepts.specs.Rules.{nameless_at, is_nameless, id_at, repeats_id, repeats_concept, broken_at};
ghost use Rattle.xc_concepts.specs.Steps.{has_text, is_text, is_text_of, is_concept_of, nameless_fault, id_fault, concept_fault, earlier_fault};
ghost use Rattle.xc_names.specs.Names.{is_named};

use crate::concepts::Concepts;
use crate::elements::{target_space, text_at, top_name};
use crate::fault::SchemaFault;
use crate::references::{judged_at, type_name};
use std::alloc::Global;
use std::collections::BTreeSet;
use xc_elements::Tree;
use xc_lists::Memory;
use xc_names::Names;
use xc_names::laws::numbers_tell_names;

/// The first rule that a node of the document breaks.
pub(crate) fn first_node_fault(
    alloc: Global,
    concepts: &Concepts,
    names: &Names,
    tree: &Tree,
) -> Result<Option<SchemaFault>, Memory>
    requires { AreHeld concepts.now names.now }
    ensures { IfOk result (λ fault. fault ≡ first_given (broken_at concepts.now tree.now) (places tree.now)) }
{
    let nameless = nameless_fault(first_nameless(tree));
    let id = id_fault(first_repeated_id(alloc, tree)?);
    let concept = concept_fault(first_repeated_concept(alloc, concepts, names, tree)?);
    match earlier_fault(earlier_fault(nameless, id), concept) {
        Some((_, fault)) => Ok(Some(fault)),
        None => Ok(None),
    }
}

fn nameless_fault(at: Option<u32>) -> Option<(u32, SchemaFault)>
    ensures { result ≡ option_map nameless_fault at }
{
    at.map(|at| (at, SchemaFault::BadPrefix(at)))
}

fn id_fault(at: Option<u32>) -> Option<(u32, SchemaFault)>
    ensures { result ≡ option_map id_fault at }
{
    at.map(|at| (at, SchemaFault::SameId(at)))
}

fn concept_fault(at: Option<u32>) -> Option<(u32, SchemaFault)>
    ensures { result ≡ option_map concept_fault at }
{
    at.map(|at| (at, SchemaFault::SameConcept(at)))
}

// The fault of the earlier node, and at one node the first.
fn earlier_fault(
    one: Option<(u32, SchemaFault)>,
    other: Option<(u32, SchemaFault)>,
) -> Option<(u32, SchemaFault)>
    ensures { result ≡ earlier_fault one other }
{
    match (one, other) {
        (None, other) => other,
        (Some(one), None) => Some(one),
        (Some(one), Some(other)) => {
            if other.0 < one.0 {
                Some(other)
            } else {
                Some(one)
            }
        }
    }
}

// The first node that has what is judged and names no type.
fn first_nameless(tree: &Tree) -> Option<u32>
    ensures { result ≡ first_place (is_nameless tree.now) (places tree.now) }
{
    let mut first = None;
    for at in 0..tree.count() {
        first = least(first, nameless_at(tree, at));
    }
    first
}

fn least(one: Option<u32>, other: Option<u32>) -> Option<u32>
    ensures { result ≡ least one other }
{
    match (one, other) {
        (None, other) => other,
        (Some(one), None) => Some(one),
        (Some(one), Some(other)) => Some(one.min(other)),
    }
}

// The place of what is judged of a node, where it names no type.
fn nameless_at(tree: &Tree, at: u32) -> Option<u32>
    requires { at < length tree.now }
    ensures place { result ≡ nameless_at tree.now at }
    ensures within { IfSome result (λ p. p < length tree.now) }
{
    let Some(reference) = judged_at(tree, at) else {
        return None;
    };
    if type_name(tree, reference).is_some() {
        None
    } else {
        Some(reference.at)
    }
}

// The first element whose `id` an earlier one has.
fn first_repeated_id(alloc: Global, tree: &Tree) -> Result<Option<u32>, Memory>
    ensures { IfOk result (λ at. at ≡ first_place (repeats_id tree.now) (places tree.now)) }
{
    let mut ids = BTreeSet::new(alloc);
    for at in 0..tree.count() {
        if note_text(&mut ids, id_at(tree, at))? {
            return Ok(Some(at));
        }
    }
    Ok(None)
}

// The `id` of a node, whatever its element.
fn id_at<'a>(tree: &'a Tree, at: u32) -> Option<&'a str>
    requires { at < length tree.now }
    ensures { option_map (λ id. id.now) result ≡ id_at tree.now at }
{
    text_at(tree, at, "id")
}

// The first node whose concept was declared before, in one of the schemas or at an earlier node.
fn first_repeated_concept(
    alloc: Global,
    concepts: &Concepts,
    names: &Names,
    tree: &Tree,
) -> Result<Option<u32>, Memory>
    requires { AreHeld concepts.now names.now }
    ensures { IfOk result (λ at. at ≡ first_place (repeats_concept concepts.now tree.now) (places tree.now)) }
{
    let mut locals = BTreeSet::new(alloc);
    for at in 0..tree.count() {
        let local = top_name(tree, "element", at);
        if note_concept_name(concepts, names, target_space(tree), &mut locals, local)? {
            return Ok(Some(at));
        }
    }
    Ok(None)
}

// Puts a local part, where there is one, among these, and tells whether it was there, or one of the
// schemas has a concept of this name.
fn note_concept_name<'a>(
    concepts: &Concepts,
    names: &Names,
    space: &str,
    locals: &mut BTreeSet<&'a str>,
    local: Option<&'a str>,
) -> Result<bool, Memory>
    requires { AreHeld concepts.now names.now }
    ensures taken { IfOk result (λ taken. taken ≡ (is_concept_of concepts.now space.now local.entry || is_text_of locals.old.keys local.entry)) }
    ensures more { OnOk result ((x : List ℕ) → has_text locals.new.keys x ≡ (has_text locals.old.keys x || is_text x local.entry)) }
{
    let repeated = note_text(locals, local)?;
    Ok(has_concept(concepts, names, space, local) || repeated)
}

// Puts a text, where there is one, among these, and tells whether it was there.
fn note_text<'a>(texts: &mut BTreeSet<&'a str>, text: Option<&'a str>) -> Result<bool, Memory>
    ensures there { IfOk result (λ there. there ≡ is_text_of texts.old.keys text.entry) }
    ensures more { OnOk result ((x : List ℕ) → has_text texts.new.keys x ≡ (has_text texts.old.keys x || is_text x text.entry)) }
{
    match text {
        Some(text) => Ok(!texts.insert(text)?),
        None => Ok(false),
    }
}

// Whether there is a local part and one of the schemas declares a concept of this name.
fn has_concept(concepts: &Concepts, names: &Names, space: &str, local: Option<&str>) -> bool
    requires { AreHeld concepts.now names.now }
    ensures { result ≡ is_concept_of concepts.now space.now local.entry }
{
    match local {
        Some(local) => is_declared(concepts, names, space, local),
        None => false,
    }
}

// A concept's name has its number, and no other name has it.
fn is_declared(concepts: &Concepts, names: &Names, space: &str, local: &str) -> bool
    requires { AreHeld concepts.now names.now }
    ensures { result ≡ list_any (λ s. list_any (λ c. is_named space.now local.now c.declared.name) s.concepts) concepts.now }
{
    numbers_tell_names();
    match names.find(space, local) {
        Some(number) => concepts.has_number(number),
        None => false,
    }
}
