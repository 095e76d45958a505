// Trees of elements.
ghost use Rattle.std.specs.Prelude.{◌≡◌, ◌<◌, IfSome, length, option_map, option_and_then};
ghost use Rattle.xc_elements.specs.Scopes.{first_declared, not_empty, space_in_scope};
ghost use Rattle.xc_elements.specs.Trees.{IsTree, path, parent_of, attribute_of, trimmed_attribute};

use crate::nodes::{Node, value_among};
use std::marker::Model;
use xc_chars::trimmed;
use xc_lists::Items;

/// The namespace of the prefix `xml`.
pub const XML_SPACE: &str = "http://www.w3.org/XML/1998/namespace";

/// The namespace of declarations of namespaces.
pub const DECLARATIONS_SPACE: &str = "http://www.w3.org/2000/xmlns/";

/// The elements of a document, in its order. There is one at least, the root.
#[derive(Debug, Drop)]
pub struct Tree {
    nodes: Items<Node>,
}

impl Model for Tree {
    ghost use Rattle.std.specs.Prelude.{List};
    ghost use Rattle.xc_elements.specs.declared.nodes.Node.{Node};
    ghost use Rattle.xc_elements.specs.Trees.{IsTree};

    ghost Value = { List Node };

    ghost view = { λ t. t.nodes };

    ghost invariant = { λ t. IsTree t.nodes };
}

impl Tree {
    /// The tree of these elements.
    pub(crate) fn of(nodes: Vec<Node>) -> Tree
        requires { IsTree nodes.items }
        ensures { result ≡ nodes.items }
    {
        Tree {
            nodes: Items::of(nodes),
        }
    }

    /// The elements. The first is the root, the parent of every other is an earlier one, and the elements inside one are exactly
    /// those after it and before its `end`.
    pub fn nodes(&self) -> &[Node]
        ensures nodes { result.now ≡ self.now }
        ensures tree { IsTree result.now }
    {
        self.nodes.as_slice()
    }

    /// How many elements there are.
    pub fn count(&self) -> u32
        ensures { result ≡ length self.now }
    {
        let nodes = self.nodes();
        // The root's end is behind all others, so the number of elements is that of a u32.
        let end = nodes[0].end;
        prove!(nodes.len() <= end.max(1) as usize);
        nodes.len() as u32
    }

    /// The number of the element that an element stands directly in; None for the root alone.
    pub fn parent_of(&self, node: u32) -> Option<u32>
        requires { node < length self.now }
        ensures parent { result ≡ parent_of self.now node }
        ensures earlier { IfSome result (λ parent. parent < node) }
    {
        self.nodes()[node as usize].parent
    }

    /// The value of an element's attribute with this expanded name.
    pub fn attribute(&self, node: u32, space: &str, local: &str) -> Option<&str>
        requires { node < length self.now }
        ensures { option_map (λ value. value.now) result ≡ attribute_of self.now node space.now local.now }
    {
        value_among(
            self.nodes()[node as usize].attributes.as_slice(),
            space,
            local,
        )
    }

    /// The same without the white space around it: spaces, tabs, line feeds and carriage returns.
    pub fn trimmed_attribute(&self, node: u32, space: &str, local: &str) -> Option<&str>
        requires { node < length self.now }
        ensures { option_map (λ value. value.now) result ≡ trimmed_attribute self.now node space.now local.now }
    {
        match self.attribute(node, space, local) {
            Some(value) => Some(trimmed(value)),
            None => None,
        }
    }

    /// The namespace that a prefix stands for at an element, as the nearest declaration on the path from the root sets it. The
    /// empty prefix asks for the default namespace.
    ///
    /// The prefix `xml` stands for its namespace everywhere. One that is not declared, or was cleared by an empty value, stands for none.
    pub fn space_of(&self, node: u32, prefix: &str) -> Option<&str>
        requires { node < length self.now }
        ensures { option_map (λ space. space.now) result ≡ space_in_scope self.now node prefix.now }
    {
        if prefix == "xml" {
            Some(XML_SPACE)
        } else if prefix == "xmlns" {
            None
        } else {
            not_empty(first_declared(self.nodes(), node, prefix))
        }
    }
}

/// What is declared, unless its value clears it.
pub(crate) fn not_empty(space: Option<&str>) -> Option<&str>
    ensures { option_map (λ space. space.now) result ≡ option_and_then not_empty (option_map (λ space. space.now) space.entry) }
{
    match space {
        Some(space) => { if space.is_empty() { None } else { Some(space) } }
        None => None,
    }
}

/// What the nearest node on the path to the root that declares a prefix sets it to.
fn first_declared<'a>(nodes: &'a [Node], node: u32, prefix: &str) -> Option<&'a str>
    requires tree { IsTree nodes.now }
    requires within { node < length nodes.now }
    ensures { option_map (λ space. space.now) result ≡ first_declared nodes.now (path nodes.now node) prefix.now }
{
    let mut at = Some(node);
    while let Some(number) = at {
        let here = &nodes[number as usize];
        match here.declared.get(prefix) {
            Some(space) => return Some(space),
            None => at = here.parent,
        }
    }
    None
}
