// The locators at the ends of an arc element, and the concepts that they name.
ghost use Rattle.std.specs.Prelude.{◌≡◌, ◌<◌, length};
ghost use Rattle.xc_calc.specs.Ends.{concept_of_href, concept_named_at, end_at};
ghost use Rattle.xc_calc.specs.Steps.Labels.{AreLocators};

use crate::elements::xlink_at;
use crate::locators::Locators;
use xc_chars::{around, file_name};
use xc_concepts::Concepts;
use xc_elements::Tree;
use xc_names::NameId;

// The concept that an href names.
fn concept_of_href(concepts: &Concepts, href: &str) -> Option<NameId>
    ensures { result ≡ concept_of_href concepts.now href.now }
{
    let Some((path, id)) = around(href, '#') else {
        return None;
    };
    concepts.by_id(file_name(path), id)
}

/// The concept that a locator names.
pub(crate) fn concept_named_at(tree: &Tree, concepts: &Concepts, at: u32) -> Option<NameId>
    requires { at < length tree.now }
    ensures { result ≡ concept_named_at concepts.now tree.now at }
{
    match xlink_at(tree, at, "href") {
        Some(href) => concept_of_href(concepts, href),
        None => None,
    }
}

/// The locators that one end of an arc element names, by the attribute of XLink with this local part.
pub(crate) fn end_at<'a, 'b>(
    found: &'b Locators<'a>,
    tree: &'a Tree,
    at: u32,
    local: &str,
) -> &'b [u32]
    requires found { AreLocators found.now tree.now }
    requires within { at < length tree.now }
    ensures { result.now ≡ end_at tree.now at local.now }
{
    let Some(link) = tree.parent_of(at) else {
        return &[];
    };
    match xlink_at(tree, at, local) {
        Some(label) => found.locators_with_label(link, label),
        None => &[],
    }
}
