// The texts of a schema that name types, and the types that they name.
ghost use Rattle.std.specs.Prelude.{◌≡◌, ◌<◌, IfSome, length, option_map};
ghost use Rattle.xc_names.specs.Names.{lent_name};
ghost use Rattle.xc_concepts.specs.Schemas.{restricted_type, restricted_element};
ghost use Rattle.xc_concepts.specs.References.{default_space, type_name, base_of_restriction, first_base, base_of_type, type_of_element, judged_at};
ghost use Rattle.xc_concepts.specs.Steps.{reference_view, restricted_node};

use crate::elements::{element_around, is_place, text_at, top_name};
use xc_chars::{is_plain_name, split};
use xc_elements::Tree;

/// A text that names a type, at a node of the document that lends it.
#[derive(Clone, Copy)]
pub(crate) struct Reference<'a> {
    pub at: u32,
    pub text: &'a str,
}

/// Whose content a restriction restricts: that of a complex type, or of an element that has such a
/// type of its own.
#[derive(Clone, Copy)]
pub(crate) enum Restricted {
    AsType,
    AsElement,
}

/// The namespace and the local part of the type that a text names at its node.
pub(crate) fn type_name<'a>(tree: &'a Tree, reference: Reference<'a>) -> Option<(&'a str, &'a str)>
    requires { reference.at < length tree.now }
    ensures { option_map lent_name result ≡ type_name tree.now (reference_view reference.entry) }
{
    if is_plain_name(reference.text) {
        return Some((default_space(tree, reference.at), reference.text));
    }
    let Some((prefix, local)) = split(reference.text) else {
        return None;
    };
    match tree.space_of(reference.at, prefix) {
        Some(space) => Some((space, local)),
        None => None,
    }
}

fn default_space(tree: &Tree, at: u32) -> &str
    requires { at < length tree.now }
    ensures { result.now ≡ default_space tree.now at }
{
    match tree.space_of(at, "") {
        Some(space) => space,
        None => "",
    }
}

fn restricted_node(tree: &Tree, restricted: Restricted, at: u32) -> Option<u32>
    requires { at < length tree.now }
    ensures { result ≡ restricted_node tree.now restricted at }
{
    match restricted {
        Restricted::AsType => restricted_type(tree, at),
        Restricted::AsElement => restricted_element(tree, at),
    }
}

fn restricted_type(tree: &Tree, at: u32) -> Option<u32>
    requires { at < length tree.now }
    ensures restricted { result ≡ restricted_type tree.now at }
    ensures earlier { IfSome result (λ p. p < at) }
{
    let Some(content) = element_around(tree, "restriction", at) else {
        return None;
    };
    element_around(tree, "simpleContent", content)
}

fn restricted_element(tree: &Tree, at: u32) -> Option<u32>
    requires { at < length tree.now }
    ensures { result ≡ restricted_element tree.now at }
{
    let Some(complex) = restricted_type(tree, at) else {
        return None;
    };
    element_around(tree, "complexType", complex)
}

fn base_of_restriction<'a>(
    tree: &'a Tree,
    restricted: Restricted,
    element: u32,
    at: u32,
) -> Option<Reference<'a>>
    requires { at < length tree.now }
    ensures reference { option_map reference_view result ≡ base_of_restriction tree.now (restricted_node tree.now restricted) element at }
    ensures within { IfSome result (λ r. r.at < length tree.now) }
{
    if !is_place(element, restricted_node(tree, restricted, at)) {
        return None;
    }
    match text_at(tree, at, "base") {
        Some(text) => Some(Reference { at, text }),
        None => None,
    }
}

// What an element's content restricts stands inside it, so nothing behind its end is looked at.
fn first_base<'a>(tree: &'a Tree, restricted: Restricted, element: u32) -> Option<Reference<'a>>
    requires { element < length tree.now }
    ensures reference { option_map reference_view result ≡ first_base tree.now (restricted_node tree.now restricted) element }
    ensures within { IfSome result (λ r. r.at < length tree.now) }
{
    let end = tree.nodes()[element as usize].end.min(tree.count());
    for at in element + 1..end {
        let base = base_of_restriction(tree, restricted, element, at);
        if base.is_some() {
            return base;
        }
    }
    None
}

/// What names the base of a complex type.
pub(crate) fn base_of_type<'a>(tree: &'a Tree, at: u32) -> Option<Reference<'a>>
    requires { at < length tree.now }
    ensures reference { option_map reference_view result ≡ base_of_type tree.now at }
    ensures within { IfSome result (λ r. r.at < length tree.now) }
{
    first_base(tree, Restricted::AsType, at)
}

/// What names the type of an element.
pub(crate) fn type_of_element<'a>(tree: &'a Tree, at: u32) -> Option<Reference<'a>>
    requires { at < length tree.now }
    ensures reference { option_map reference_view result ≡ type_of_element tree.now at }
    ensures within { IfSome result (λ r. r.at < length tree.now) }
{
    match text_at(tree, at, "type") {
        Some(text) => Some(Reference { at, text }),
        None => first_base(tree, Restricted::AsElement, at),
    }
}

/// What is judged of a node: what names the type of a concept, or the base of a type that has a
/// name.
pub(crate) fn judged_at<'a>(tree: &'a Tree, at: u32) -> Option<Reference<'a>>
    requires { at < length tree.now }
    ensures reference { option_map reference_view result ≡ judged_at tree.now at }
    ensures within { IfSome result (λ r. r.at < length tree.now) }
{
    if top_name(tree, "element", at).is_some() {
        return type_of_element(tree, at);
    }
    if top_name(tree, "complexType", at).is_some() {
        return base_of_type(tree, at);
    }
    None
}
