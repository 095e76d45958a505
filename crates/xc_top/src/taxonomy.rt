// What the documents of a taxonomy say together.
ghost use Rattle.std.specs.Prelude.{◌≡◌, ◌++◌, [], List, None, Some, option_map, option_and_then, option_to_list, IfOk, OnOk};
ghost use Rattle.xc_calc.specs.Linked.{with_arcs};
ghost use Rattle.xc_concepts.specs.Held.{AreHeld};
ghost use Rattle.xc_concepts.specs.declared.schema.Schema.{Schema};
ghost use Rattle.xc_top.specs.Steps.Stops.{IfStopped, IsSettled};
ghost use Rattle.xc_top.specs.Steps.Added.{IsAdded, broken_beside};
ghost use Rattle.xc_top.specs.Taxonomies.{AreSchemasOf, IsTaxonomyOf, IsTaxonomyRefusal, schemas_in, linkbases_in, schema_in, linkbase_in, schema_broken, link_broken, first_schema_broken, first_link_broken, arcs_of, part_of};

use crate::documents::{Content, Document, require_taxonomies};
use crate::refusals::{link_refusal, schema_refusal};
use crate::status::Stop;
use std::alloc::Global;
use xc_calc::{ArcKind, Arcs, Network, is_linkbase};
use xc_chars::file_name;
use xc_concepts::{Concepts, is_schema};
use xc_elements::Tree;
use xc_lists::Memory;
use xc_names::{Names, Wanted};

/// What a taxonomy says.
#[derive(Drop)]
pub struct Taxonomy {
    /// The names of its concepts, and whatever further names are numbered.
    pub names: Names,
    /// The networks of its effective arcs, by role.
    pub networks: Vec<Network>,
    /// The concepts at the ends of its arcs, and its typed dimensions.
    pub wanted: Wanted,
}

/// What the schemas of a taxonomy declare, and its linkbases, which are read over that.
#[derive(Drop)]
pub struct Declarations {
    pub concepts: Concepts,
    pub linkbases: Vec<Document>,
}

/// The schemas among these documents, added in their order, each let go once it is; and the linkbases that are left.
pub fn add_schemas(
    alloc: Global,
    names: &mut Names,
    documents: Vec<Document>,
) -> Result<Declarations, Stop>
    requires { names.old ≡ [] }
    ensures schemas { IfOk result (λ said. AreSchemasOf (schemas_in documents.items) said.concepts) }
    ensures held { IfOk result (λ said. AreHeld said.concepts names.new) }
    ensures sound { IfOk result (λ said. first_schema_broken (schemas_in documents.items) said.concepts ≡ None) }
    ensures linkbases { IfOk result (λ said. linkbases_in said.linkbases.items ≡ linkbases_in documents.items) }
    ensures refused { IfStopped result (λ answer. (schemas : List Schema) × AreSchemasOf (schemas_in documents.items) schemas
        × (first_schema_broken (schemas_in documents.items) schemas ≡ Some answer)) }
    ensures status { IfStopped result (λ answer. IsSettled answer.status) }
{
    let mut concepts = Concepts::new(alloc);
    let mut linkbases = Vec::new(alloc);
    for document in documents {
        add_schema(alloc, names, &document, &mut concepts)?;
        keep_linkbase(&mut linkbases, document)?;
    }
    Ok(Declarations {
        concepts,
        linkbases,
    })
}

// Puts a document last, where it is a linkbase; any other is let go.
fn keep_linkbase(linkbases: &mut Vec<Document>, document: Document) -> Result<(), Memory>
    ensures { OnOk result (linkbases_in linkbases.new.items ≡ linkbases_in linkbases.old.items ++ option_to_list (linkbase_in document)) }
{
    if linkbase_in(&document).is_some() {
        linkbases.push(document)?;
    }
    Ok(())
}

// Adds the schema of a document, where it is one.
fn add_schema(
    alloc: Global,
    names: &mut Names,
    document: &Document,
    concepts: &mut Concepts,
) -> Result<(), Stop>
    requires { AreHeld concepts.old names.old }
    ensures added { OnOk result (IsAdded (schema_in document.now) concepts.old concepts.new) }
    ensures sound { OnOk result (broken_beside concepts.old (schema_in document.now) ≡ None) }
    ensures refused { IfStopped result (λ answer. broken_beside concepts.old (schema_in document.now) ≡ Some answer) }
    ensures status { IfStopped result (λ answer. IsSettled answer.status) }
    ensures held { AreHeld concepts.new names.new }
{
    let Some(tree) = schema_in(document) else {
        return Ok(());
    };
    let word = document.word.as_str();
    match concepts.add_schema(names, file_name(word), tree) {
        Ok(()) => Ok(()),
        Err(fault) => Err(schema_refusal(alloc, word, fault)),
    }
}

// The elements of a schema.
fn schema_in(document: &Document) -> Option<&Tree>
    ensures { option_map (λ tree. part_of document.now.word tree.now) result ≡ schema_in document.now }
{
    match &document.content {
        Content::Elements(tree) => if is_schema(tree) { Some(tree) } else { None },
        Content::Broken(_) => None,
    }
}

/// The arcs of the linkbases among these documents, added in their order, each document let go once they are.
pub fn add_linkbases(
    alloc: Global,
    kind: ArcKind,
    concepts: &Concepts,
    documents: Vec<Document>,
) -> Result<Arcs, Stop>
    ensures arcs { IfOk result (λ arcs. arcs.arcs ≡ arcs_of kind concepts.now (linkbases_in documents.items)) }
    ensures sound { OnOk result (first_link_broken kind concepts.now (linkbases_in documents.items) ≡ None) }
    ensures refused { IfStopped result (λ answer. first_link_broken kind concepts.now (linkbases_in documents.items) ≡ Some answer) }
    ensures status { IfStopped result (λ answer. IsSettled answer.status) }
{
    let mut arcs = Arcs::new(alloc, kind);
    for document in documents {
        add_linkbase(alloc, concepts, &document, &mut arcs)?;
    }
    Ok(arcs)
}

// Adds the arcs of a document, where it is a linkbase.
fn add_linkbase(
    alloc: Global,
    concepts: &Concepts,
    document: &Document,
    arcs: &mut Arcs,
) -> Result<(), Stop>
    ensures added { OnOk result (arcs.new ≡ with_arcs arcs.old (arcs_of arcs.old.kind concepts.now (option_to_list (linkbase_in document.now)))) }
    ensures sound { OnOk result (option_and_then (link_broken arcs.old.kind concepts.now) (linkbase_in document.now) ≡ None) }
    ensures refused { IfStopped result (λ answer. option_and_then (link_broken arcs.old.kind concepts.now) (linkbase_in document.now) ≡ Some answer) }
    ensures status { IfStopped result (λ answer. IsSettled answer.status) }
{
    let Some(tree) = linkbase_in(document) else {
        return Ok(());
    };
    match arcs.add_linkbase(tree, concepts) {
        Ok(()) => Ok(()),
        Err(fault) => Err(link_refusal(alloc, document.word.as_str(), fault)),
    }
}

// The elements of a linkbase.
fn linkbase_in(document: &Document) -> Option<&Tree>
    ensures { option_map (λ tree. part_of document.now.word tree.now) result ≡ linkbase_in document.now }
{
    match &document.content {
        Content::Elements(tree) => if is_linkbase(tree) { Some(tree) } else { None },
        Content::Broken(_) => None,
    }
}

// The same concepts, with the kinds of their types worked out, so that no arc follows a chain of types.
fn with_kinds(concepts: Concepts) -> Result<Concepts, Memory>
    ensures { IfOk result (λ noted. noted ≡ concepts) }
{
    let mut noted = concepts;
    noted.note_kinds()?;
    Ok(noted)
}

/// What these documents say together, or the first that is refused: each has to be a schema or a linkbase; then the
/// schemas are added in their order, and then the linkbases.
pub fn taxonomy_of(alloc: Global, kind: ArcKind, documents: Vec<Document>) -> Result<Taxonomy, Stop>
    ensures taxonomy { IfOk result (λ taxonomy. IsTaxonomyOf kind documents.items taxonomy.names taxonomy.networks.items taxonomy.wanted) }
    ensures refused { IfStopped result (λ answer. IsTaxonomyRefusal kind documents.items answer) }
    ensures status { IfStopped result (λ answer. IsSettled answer.status) }
{
    require_taxonomies(alloc, documents.as_slice())?;
    let mut names = Names::new(alloc);
    let declared = add_schemas(alloc, &mut names, documents)?;
    let concepts = with_kinds(declared.concepts)?;
    let arcs = add_linkbases(alloc, kind, &concepts, declared.linkbases)?;
    let wanted = arcs.wanted(&concepts)?;
    drop(concepts);
    let networks = arcs.effective()?;
    Ok(Taxonomy {
        names,
        networks,
        wanted,
    })
}
