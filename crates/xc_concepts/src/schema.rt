use xc_lists::{Items, Text};
use xc_names::{Expanded, NameId};

/// What an element declares that is a concept: an `xs:element` child of a schema's root with a name.
#[derive(Debug, Drop)]
pub struct Declared {
    /// The element's `id`, where it has one.
    pub id: Option<Text>,
    /// The schema's target namespace and the element's name.
    pub name: Expanded,
    /// The name of its type, or of the type that it restricts in place.
    pub first_type: Option<Expanded>,
    /// It is a typed dimension.
    pub typed: bool,
}

/// A concept with the number of its name.
#[derive(Debug, Drop)]
pub struct Concept {
    /// The number of its name.
    pub number: NameId,
    /// What its element declares.
    pub declared: Declared,
}

/// A complex type of a schema that has a name.
#[derive(Debug, Drop)]
pub struct NamedType {
    /// The schema's target namespace and the name of the type.
    pub name: Expanded,
    /// The name of the type whose simple content it restricts.
    pub base: Option<Expanded>,
}

/// What one schema declares, in the order of the document.
#[derive(Debug, Drop)]
pub struct Schema {
    /// The name of its file.
    pub file: Text,
    /// Its concepts.
    pub concepts: Items<Concept>,
    /// Its complex types that have a name.
    pub types: Items<NamedType>,
}
