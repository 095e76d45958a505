// The nodes of trees.
ghost use Rattle.std.specs.Prelude.{◌≡◌, ◌&&◌, option_map};
ghost use Rattle.std.specs.Str.{bytes_eq};
ghost use Rattle.xc_elements.specs.Trees.{is_element, is_named, value_among};

use crate::declared::Declared;
use xc_lists::{Items, Text};

/// An attribute of an element, by its expanded name.
///
/// Declarations of namespaces are among the attributes, in the namespace
/// `http://www.w3.org/2000/xmlns/`, with the prefix as local part, or the empty local part for the default.
#[derive(Debug, Drop)]
pub struct Attribute {
    /// The URI of the name's namespace, empty where it has none.
    pub space: Text,
    /// The local part of the name.
    pub local: Text,
    /// The value, with white space as XML 1.0 normalizes it: sections 2.11 and 3.3.3.
    pub value: Text,
}

/// A declaration of a namespace, by its name as it is written: Namespaces in XML 1.0, section 3.
#[derive(Debug, Drop)]
pub struct NamespaceDeclaration {
    /// Empty where the default namespace is declared.
    pub prefix: Text,
    /// The URI, empty where the declaration clears what is declared further out.
    pub space: Text,
}

/// An element of a document.
#[derive(Debug, Drop)]
pub struct Node {
    /// The URI of the name's namespace, empty where it has none.
    pub space: Text,
    /// The local part of the name.
    pub local: Text,
    /// In the order of the document.
    pub attributes: Items<Attribute>,
    /// What it declares itself, by the names of attributes as they are written.
    pub declared: Declared,
    /// The number of the element that it stands directly in.
    pub parent: Option<u32>,
    /// The number behind the last element inside it.
    pub end: u32,
    /// The text directly in it: letters, references and sections, with each end of a line as a line feed.
    pub text: Text,
}

impl Node {
    /// Whether the element has this expanded name.
    pub fn is(&self, space: &str, local: &str) -> bool
        ensures { result ≡ is_element space.now local.now self.now }
    {
        self.space.as_str() == space && self.local.as_str() == local
    }
}

/// Whether the attribute has this expanded name.
pub(crate) fn is_named(attribute: &Attribute, space: &str, local: &str) -> bool
    ensures { result ≡ is_named space.now local.now attribute.now }
{
    attribute.space.as_str() == space && attribute.local.as_str() == local
}

/// The value of the attribute with this expanded name.
pub(crate) fn value_among<'a>(
    attributes: &'a [Attribute],
    space: &str,
    local: &str,
) -> Option<&'a str>
    ensures { option_map (λ value. value.now) result ≡ value_among attributes.now space.now local.now }
{
    attributes
        .iter()
        .find(|attribute| is_named(attribute, space, local))
        .map(|attribute| attribute.value.as_str())
}
