// The elements of a schema document.
ghost use Rattle.std.specs.Prelude.{◌≡◌, ◌<◌, IfSome, length, option_map};
ghost use Rattle.xc_concepts.specs.Schemas.{is_schema, is_schema_node, is_schema_element, text_at, is_top, top_name, target_space, element_around, restricted_type, restricted_element};
ghost use Rattle.xc_lists.specs.Places.{is_place};

use xc_elements::{Node, Tree};

const SCHEMA_SPACE: &str = "http://www.w3.org/2001/XMLSchema";

/// Whether the document is a schema: its root is `schema` of XML Schema (XBRL 2.1, section 5.1).
pub fn is_schema(tree: &Tree) -> bool
    ensures { result ≡ is_schema tree.now }
{
    match tree.nodes() {
        [] => false,
        [root, ..] => is_schema_node("schema", root),
    }
}

fn is_schema_node(local: &str, node: &Node) -> bool
    ensures { result ≡ is_schema_node local.now node.now }
{
    node.is(SCHEMA_SPACE, local)
}

// Whether the node at a place is this element of XML Schema.
fn is_schema_element(tree: &Tree, local: &str, at: u32) -> bool
    requires { at < length tree.now }
    ensures { result ≡ is_schema_element tree.now local.now at }
{
    is_schema_node(local, &tree.nodes()[at as usize])
}

/// The value of an attribute without namespace, without the white space around it.
pub(crate) fn text_at<'a>(tree: &'a Tree, at: u32, local: &str) -> Option<&'a str>
    requires { at < length tree.now }
    ensures { option_map (λ text. text.now) result ≡ text_at tree.now at local.now }
{
    tree.trimmed_attribute(at, "", local)
}

// Whether the node is this element of XML Schema, and a child of the root.
fn is_top(tree: &Tree, local: &str, at: u32) -> bool
    requires { at < length tree.now }
    ensures { result ≡ is_top tree.now local.now at }
{
    is_schema_element(tree, local, at) && is_place(0, tree.parent_of(at))
}

/// The name of a child of the root that is this element.
pub(crate) fn top_name<'a>(tree: &'a Tree, local: &str, at: u32) -> Option<&'a str>
    requires { at < length tree.now }
    ensures { option_map (λ name. name.now) result ≡ top_name tree.now local.now at }
{
    if is_top(tree, local, at) {
        text_at(tree, at, "name")
    } else {
        None
    }
}

/// Whether there is a place, and it is this one.
pub(crate) fn is_place(at: u32, place: Option<u32>) -> bool
    ensures { result ≡ is_place at place }
{
    match place {
        Some(place) => place == at,
        None => false,
    }
}

/// The namespace of what the schema declares, empty where it has none.
pub(crate) fn target_space(tree: &Tree) -> &str
    requires { 0 < length tree.now }
    ensures { result.now ≡ target_space tree.now }
{
    match tree.attribute(0, "", "targetNamespace") {
        Some(space) => space,
        None => "",
    }
}

/// The parent of the node, where the node is this element of XML Schema.
pub(crate) fn element_around(tree: &Tree, local: &str, at: u32) -> Option<u32>
    requires { at < length tree.now }
    ensures element_around { result ≡ element_around tree.now local.now at }
    ensures earlier { IfSome result (λ p. p < at) }
{
    if is_schema_element(tree, local, at) {
        tree.parent_of(at)
    } else {
        None
    }
}
