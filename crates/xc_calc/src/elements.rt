// The elements of a linkbase document.
ghost use Rattle.std.specs.Prelude.{◌≡◌, ◌<◌, length, option_map};
ghost use Rattle.xc_calc.specs.Linkbases.{is_linkbase, is_link_node, is_link_element, is_child, xlink_at, plain_at, is_link, role_at, chosen_arcrole, is_text, is_in_link, is_arc, is_chosen};
ghost use Rattle.xc_calc.specs.Steps.Labels.{is_linked_locator};

use crate::arc::ArcKind;
use xc_elements::{Node, Tree};

const LINK_SPACE: &str = "http://www.xbrl.org/2003/linkbase";

/// The namespace of XLink.
pub(crate) const XLINK_SPACE: &str = "http://www.w3.org/1999/xlink";

/// Whether the document is a linkbase: its root is `linkbase` of XBRL (XBRL 2.1, section 3.5).
pub fn is_linkbase(tree: &Tree) -> bool
    ensures { result ≡ is_linkbase tree.now }
{
    match tree.nodes() {
        [] => false,
        [root, ..] => is_link_node("linkbase", root),
    }
}

fn is_link_node(local: &str, node: &Node) -> bool
    ensures { result ≡ is_link_node local.now node.now }
{
    node.is(LINK_SPACE, local)
}

// Whether the node at a place is this element of linkbases.
fn is_link_element(tree: &Tree, local: &str, at: u32) -> bool
    requires { at < length tree.now }
    ensures { result ≡ is_link_element tree.now local.now at }
{
    is_link_node(local, &tree.nodes()[at as usize])
}

fn is_child(tree: &Tree, parent: u32, at: u32) -> bool
    requires { at < length tree.now }
    ensures { result ≡ is_child tree.now parent at }
{
    match tree.parent_of(at) {
        Some(place) => place == parent,
        None => false,
    }
}

/// The value of an attribute of XLink, without the white space around it.
pub(crate) fn xlink_at<'a>(tree: &'a Tree, at: u32, local: &str) -> Option<&'a str>
    requires { at < length tree.now }
    ensures { option_map (λ text. text.now) result ≡ xlink_at tree.now at local.now }
{
    tree.trimmed_attribute(at, XLINK_SPACE, local)
}

/// The value of an attribute without namespace, without the white space around it.
pub(crate) fn plain_at<'a>(tree: &'a Tree, at: u32, local: &str) -> Option<&'a str>
    requires { at < length tree.now }
    ensures { option_map (λ text. text.now) result ≡ plain_at tree.now at local.now }
{
    tree.trimmed_attribute(at, "", local)
}

// Whether the node is an extended link of calculations.
fn is_link(tree: &Tree, at: u32) -> bool
    requires { at < length tree.now }
    ensures { result ≡ is_link tree.now at }
{
    is_link_element(tree, "calculationLink", at) && is_child(tree, 0, at)
}

/// The role of an extended link, empty where it has none.
pub(crate) fn role_at(tree: &Tree, link: u32) -> &str
    requires { link < length tree.now }
    ensures { result.now ≡ role_at tree.now link }
{
    match xlink_at(tree, link, "role") {
        Some(role) => role,
        None => "",
    }
}

fn chosen_arcrole(kind: ArcKind) -> &'static str
    ensures { result.now ≡ chosen_arcrole kind }
{
    match kind {
        ArcKind::New => "https://xbrl.org/2023/arcrole/summation-item",
        ArcKind::Old => "http://www.xbrl.org/2003/arcrole/summation-item",
    }
}

fn is_text(wanted: &str, text: Option<&str>) -> bool
    ensures { result ≡ is_text wanted.now (option_map (λ text. text.now) text.entry) }
{
    match text {
        Some(text) => text == wanted,
        None => false,
    }
}

// Whether the node is an arc element of an extended link.
fn is_arc(tree: &Tree, at: u32) -> bool
    requires { at < length tree.now }
    ensures { result ≡ is_arc tree.now at }
{
    is_link_element(tree, "calculationArc", at) && is_in_link(tree, at)
}

fn is_in_link(tree: &Tree, at: u32) -> bool
    requires { at < length tree.now }
    ensures { result ≡ is_in_link tree.now at }
{
    match tree.parent_of(at) {
        Some(link) => is_link(tree, link),
        None => false,
    }
}

/// Whether the node is an arc element with the arcrole of this kind.
pub(crate) fn is_chosen(kind: ArcKind, tree: &Tree, at: u32) -> bool
    requires { at < length tree.now }
    ensures { result ≡ is_chosen kind tree.now at }
{
    is_arc(tree, at) && is_text(chosen_arcrole(kind), xlink_at(tree, at, "arcrole"))
}

/// Whether the node is a locator that has an href.
pub(crate) fn is_linked_locator(tree: &Tree, at: u32) -> bool
    requires { at < length tree.now }
    ensures { result ≡ is_linked_locator tree.now at }
{
    is_link_element(tree, "loc", at) && xlink_at(tree, at, "href").is_some()
}
