ghost use Rattle.std.specs.Prelude.{◌≡◌, ◌⊎◌, ◌++◌, ◌∷◌, [], true, false, None, Some, map, is_some, IfOk, IfErr, OnOk, OnErr, IfSome, option_map};
ghost use Rattle.xc_concepts.specs.Chains.{IsKind, concept_numbered, kind_of};
ghost use Rattle.xc_concepts.specs.Held.{AreHeld, IsWith, number_by_id, is_typed, AreTyped};
ghost use Rattle.xc_concepts.specs.Rules.{first_broken, has_file};
ghost use Rattle.xc_concepts.specs.Schemas.{is_schema};
ghost use Rattle.xc_names.specs.Names.{KeepsNumbers};

use crate::fault::SchemaFault;
use crate::ids::{Files, note_file, number_at, numbers_by_id};
use crate::kind::Kind;
use crate::kinds::{Kinds, kind_by, kinds_of};
use crate::links::{Links, TypeName, concept_links, put_all, type_links};
use crate::reading::read_schema;
use crate::rules::first_node_fault;
use crate::schema::Schema;
use crate::typed::{is_typed, typed_numbers};
use indexmap::IndexMap;
use std::alloc::Global;
use std::collections::BTreeMap;
use std::marker::Model;
use xc_elements::Tree;
use xc_lists::Memory;
use xc_names::{NameId, Names};

/// What the schemas of a taxonomy declare, in the order in which they are added.
///
/// Maps go with the schemas: from files and ids to the numbers of concepts, from these numbers to the
/// names of their types, and from types to their bases. So neither an id nor a kind is searched among
/// all concepts or types. The kinds of types are kept where `note_kinds` has worked them out.
#[derive(Drop)]
pub struct Concepts {
    schemas: Vec<Schema>,
    ids: Files,
    first_types: Links<u64>,
    bases: Links<TypeName>,
    kinds: Kinds,
    alloc: Global,
}

impl Model for Concepts {
    ghost use Rattle.std.specs.Prelude.{List};
    ghost use Rattle.xc_concepts.specs.declared.schema.Schema.{Schema};
    ghost use Rattle.xc_concepts.specs.Declarations.{concepts_in, types_in};
    ghost use Rattle.xc_concepts.specs.Steps.Ids.{AreNumbersOf};
    ghost use Rattle.xc_concepts.specs.Steps.Kinds.{AreKinds};
    ghost use Rattle.xc_concepts.specs.Steps.Links.{AreFirstTypes, AreBases};

    ghost Value = { List Schema };

    ghost view = { λ c. c.schemas.items };

    ghost invariant = { λ c. AreNumbersOf c.schemas.items c.ids
        × AreFirstTypes (concepts_in c.schemas.items) c.first_types
        × AreBases (types_in c.schemas.items) c.bases
        × AreKinds (types_in c.schemas.items) c.kinds };
}

impl Concepts {
    /// No schemas.
    pub fn new(alloc: Global) -> Concepts
        ensures { result ≡ [] }
    {
        Concepts {
            schemas: Vec::new(alloc),
            ids: BTreeMap::new(alloc),
            first_types: IndexMap::new(alloc),
            bases: IndexMap::new(alloc),
            kinds: IndexMap::new(alloc),
            alloc,
        }
    }

    /// Adds what the schema of a file declares (XBRL 2.1, section 5.1).
    ///
    /// The tree's root is `schema` of XML Schema, which `is_schema` tells. `names` has the names of
    /// the concepts so far under their numbers; it may gain names even where the schema is refused.
    ///
    /// `SameFile` comes exactly where a schema of this file name was added before. Else the nodes are
    /// taken in the order of the document, and the first that breaks a rule gives the refusal, by the
    /// first of these rules: `BadPrefix` where it has a `type` or `base` that is judged and that is
    /// neither a plain name nor a text that `split` takes with a prefix in scope; `SameId` where an
    /// earlier element has the same `id`; `SameConcept` where its concept was declared before. What
    /// is judged: what names the type of a concept, and the first `base` at the path
    /// `xs:simpleContent`, `xs:restriction` below a complex type that has a name. A refusal leaves
    /// the concepts as they were.
    pub fn add_schema(
        &mut self,
        names: &mut Names,
        file: &str,
        tree: &Tree,
    ) -> Result<(), SchemaFault>
        requires schema { is_schema tree.now ≡ true }
        requires held { AreHeld self.old names.old }
        ensures added { OnOk result (IsWith file.now tree.now self.old self.new) }
        ensures sound { OnOk result (first_broken self.old file.now tree.now ≡ None) }
        ensures fault { IfErr result (λ e. (e ≡ SchemaFault.Memory) ⊎ (first_broken self.old file.now tree.now ≡ Some e)) }
        ensures unchanged { OnErr result (self.new ≡ self.old) }
        ensures held { AreHeld self.new names.new }
        ensures kept { KeepsNumbers names.old names.new }
    {
        if has_file(self.schemas.as_slice(), file) {
            return Err(SchemaFault::SameFile);
        }
        if let Some(fault) = first_node_fault(self.alloc, self, names, tree)? {
            return Err(fault);
        }
        let schema = read_schema(self.alloc, names, file, tree)?;
        self.push_schema(schema)?;
        Ok(())
    }

    // All is gathered and room is made first, so that nothing is left behind where memory is wanting.
    fn push_schema(&mut self, schema: Schema) -> Result<(), Memory>
        requires { has_file self.old schema.file ≡ false }
        ensures kept { OnOk result (self.new ≡ self.old ++ schema ∷ []) }
        ensures err { OnErr result (self.new ≡ self.old) }
    {
        let first_types = concept_links(self.alloc, schema.concepts.as_slice())?;
        let bases = type_links(self.alloc, schema.types.as_slice())?;
        let numbers = numbers_by_id(self.alloc, schema.concepts.as_slice())?;
        self.schemas.reserve(1)?;
        self.first_types.reserve(first_types.len())?;
        self.bases.reserve(bases.len())?;
        note_file(&mut self.ids, self.alloc, schema.file.as_str(), numbers)?;
        put_all(&mut self.first_types, first_types);
        put_all(&mut self.bases, bases);
        self.kinds.clear();
        self.schemas.push_reserved(schema);
        Ok(())
    }

    /// Works the kinds of all types out, once for each, so that `kind` looks them up and follows no
    /// chain. It tells nothing else; a schema that is added later lets go of what was worked out.
    pub fn note_kinds(&mut self) -> Result<(), Memory>
        ensures { self.new ≡ self.old }
    {
        self.kinds = kinds_of(self.alloc, self.schemas.as_slice(), &self.bases)?;
        Ok(())
    }

    /// The number of the concept that an id names in the schema of a file; None exactly where that
    /// schema has no concept of that id.
    pub fn by_id(&self, file: &str, id: &str) -> Option<NameId>
        ensures { option_map (λ n. n.0) result ≡ number_by_id self.now file.now id.now }
    {
        match number_at(&self.ids, file, id) {
            Some(number) => Some(NameId(number)),
            None => None,
        }
    }

    /// The kind of a concept, by the chain of type names that begins with its own (XBRL 2.1, section
    /// 5.1.1.3). A name that is no concept is Unknown.
    pub fn kind(&self, concept: NameId) -> Kind
        ensures chain { IsKind self.now concept.0 result }
        // and as a function of the number
        ensures computed { result ≡ kind_of self.now concept.0 }
    {
        match self.first_types.get(&concept.0) {
            Some(Some(first)) => {
                kind_by(self.schemas.as_slice(), &self.bases, &self.kinds, first)
            },
            Some(None) => Kind::Other,
            None => Kind::Unknown,
        }
    }

    /// Whether a concept has this number.
    pub(crate) fn has_number(&self, number: NameId) -> bool
        ensures { result ≡ is_some (concept_numbered self.now number.0) }
    {
        self.first_types.contains_key(&number.0)
    }

    /// Whether a concept is a typed dimension (XBRL Dimensions 1.0, section 2.5.2.1). A name that is
    /// no concept is not.
    pub fn is_typed(&self, concept: NameId) -> bool
        ensures { result ≡ is_typed self.now concept.0 }
    {
        is_typed(self.schemas.as_slice(), concept)
    }

    /// The numbers of the typed dimensions, each once and ascending.
    pub fn typed_dimensions(&self) -> Result<Vec<NameId>, Memory>
        ensures { IfOk result (λ ids. AreTyped self.now (map (λ id. id.0) ids.items)) }
    {
        typed_numbers(self.alloc, self.schemas.as_slice())?.ids(self.alloc)
    }
}

fn has_file(schemas: &[Schema], file: &str) -> bool
    ensures { result ≡ has_file schemas.now file.now }
{
    schemas.iter().any(|schema| file == schema.file.as_str())
}
