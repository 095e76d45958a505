// The concepts and types of a schema document.
ghost use Rattle.std.specs.Prelude.{◌≡◌, ◌<◌, ◌++◌, length, map, IfOk, OnOk, IfSome, All, option_to_list, option_map, option_and_then};
ghost use Rattle.xc_concepts.specs.Declarations.{IsSchemaOf, declared_as, declared_at, declared_in, type_as, named_type_at, named_types_in};
ghost use Rattle.xc_concepts.specs.Held.{IsHeld};
ghost use Rattle.xc_concepts.specs.References.{type_name};
ghost use Rattle.xc_concepts.specs.Steps.{reference_view};
ghost use Rattle.xc_names.specs.Names.{KeepsNumbers};

use crate::elements::{target_space, text_at, top_name};
use crate::references::{Reference, base_of_type, type_name, type_of_element};
use crate::schema::{Concept, Declared, NamedType, Schema};
use std::alloc::Global;
use xc_elements::Tree;
use xc_lists::{Items, Memory, Text};
use xc_names::{Expanded, Names};

const DIMENSIONS_SPACE: &str = "http://xbrl.org/2005/xbrldt";

/// What the schema of a file declares.
pub(crate) fn read_schema(
    alloc: Global,
    names: &mut Names,
    file: &str,
    tree: &Tree,
) -> Result<Schema, Memory>
    ensures schema { IfOk result (IsSchemaOf file.now tree.now) }
    ensures held { IfOk result (λ schema. All (IsHeld names.new) schema.concepts) }
    ensures kept { KeepsNumbers names.old names.new }
{
    let file = Text::of(String::from_str(alloc, file)?);
    let types = Items::of(read_types(alloc, tree)?);
    let concepts = Items::of(read_concepts(alloc, names, tree)?);
    Ok(Schema {
        file,
        concepts,
        types,
    })
}

// The concepts of a document, each with the number of its name.
fn read_concepts(alloc: Global, names: &mut Names, tree: &Tree) -> Result<Vec<Concept>, Memory>
    ensures declared { IfOk result (λ concepts. map (λ c. c.declared) concepts.items ≡ declared_in tree.now) }
    ensures held { IfOk result (λ concepts. All (IsHeld names.new) concepts.items) }
    ensures kept { KeepsNumbers names.old names.new }
{
    let mut concepts = Vec::new(alloc);
    for at in 0..tree.count() {
        push_some(&mut concepts, concept_at(alloc, names, tree, at)?)?;
    }
    Ok(concepts)
}

// The concept that a node declares.
fn concept_at(
    alloc: Global,
    names: &mut Names,
    tree: &Tree,
    at: u32,
) -> Result<Option<Concept>, Memory>
    requires { at < length tree.now }
    ensures declared { IfOk result (λ o. option_map (λ c. c.declared) o ≡ declared_at tree.now at) }
    ensures held { IfOk result (λ o. IfSome o (IsHeld names.new)) }
    ensures kept { KeepsNumbers names.old names.new }
{
    let Some(name) = top_name(tree, "element", at) else {
        return Ok(None);
    };
    let declared = declared_as(alloc, tree, at, name)?;
    let number = names.number(target_space(tree), name)?;
    Ok(Some(Concept { number, declared }))
}

fn declared_as(alloc: Global, tree: &Tree, at: u32, name: &str) -> Result<Declared, Memory>
    requires { at < length tree.now }
    ensures { IfOk result (λ declared. declared ≡ declared_as tree.now at name.now) }
{
    Ok(Declared {
        id: copy_text(alloc, text_at(tree, at, "id"))?,
        name: Expanded::of(alloc, target_space(tree), name)?,
        first_type: copy_type_name(alloc, tree, type_of_element(tree, at))?,
        typed: tree
            .attribute(at, DIMENSIONS_SPACE, "typedDomainRef")
            .is_some(),
    })
}

// The types of a document.
fn read_types(alloc: Global, tree: &Tree) -> Result<Vec<NamedType>, Memory>
    ensures { IfOk result (λ types. types.items ≡ named_types_in tree.now) }
{
    let mut types = Vec::new(alloc);
    for at in 0..tree.count() {
        push_some(&mut types, named_type_at(alloc, tree, at)?)?;
    }
    Ok(types)
}

// The type that a node declares.
fn named_type_at(alloc: Global, tree: &Tree, at: u32) -> Result<Option<NamedType>, Memory>
    requires { at < length tree.now }
    ensures { IfOk result (λ o. o ≡ named_type_at tree.now at) }
{
    let Some(name) = top_name(tree, "complexType", at) else {
        return Ok(None);
    };
    Ok(Some(NamedType {
        name: Expanded::of(alloc, target_space(tree), name)?,
        base: copy_type_name(alloc, tree, base_of_type(tree, at))?,
    }))
}

// The name of the type that a text names.
fn copy_type_name(
    alloc: Global,
    tree: &Tree,
    reference: Option<Reference<'_>>,
) -> Result<Option<Expanded>, Memory>
    requires { IfSome reference (λ r. r.at < length tree.now) }
    ensures { IfOk result (λ name. name ≡ option_and_then (type_name tree.now) (option_map reference_view reference.entry)) }
{
    let Some(reference) = reference else {
        return Ok(None);
    };
    match type_name(tree, reference) {
        Some((space, local)) => Ok(Some(Expanded::of(alloc, space, local)?)),
        None => Ok(None),
    }
}

fn copy_text(alloc: Global, text: Option<&str>) -> Result<Option<Text>, Memory>
    ensures { IfOk result (λ copy. copy ≡ option_map (λ t. t.now) text.entry) }
{
    match text {
        Some(text) => Ok(Some(Text::of(String::from_str(alloc, text)?))),
        None => Ok(None),
    }
}

// Puts what there is at the end of a list.
fn push_some<T: Drop>(list: &mut Vec<T>, item: Option<T>) -> Result<(), Memory>
    ensures { OnOk result (list.new.items ≡ list.old.items ++ option_to_list item) }
{
    if let Some(item) = item {
        match list.push(item) {
            Ok(()) => {}
            Err(_) => return Err(Memory),
        }
    }
    Ok(())
}
