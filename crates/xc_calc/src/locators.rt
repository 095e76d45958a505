// The locators of a linkbase, found by extended link and label without going through its nodes.
ghost use Rattle.std.specs.Prelude.{◌≡◌, ◌<◌, ◌+◌, length, option_map, IfOk, OnOk, ℕ, List};
ghost use Rattle.xc_calc.specs.Ends.{locators};
ghost use Rattle.xc_calc.specs.Steps.Labels.{labelled_at, labelled_view, AreLabelled, AreLocators};
ghost use Rattle.xc_elements.specs.declared.nodes.Node.{Node};

use crate::elements::{is_linked_locator, xlink_at};
use crate::lists_by_key::{list_of, put_last};
use std::alloc::Global;
use std::collections::BTreeMap;
use xc_elements::Tree;
use xc_lists::Memory;

/// An extended link and a label, by which arc elements name locators.
#[derive(Clone, Copy, PartialEq, Eq, PartialOrd, Ord)]
pub(crate) struct Labelled<'a> {
    pub link: u32,
    pub label: &'a str,
}

/// The locators of a linkbase by link and label, with the labels lent from its tree.
#[derive(Drop)]
pub(crate) struct Locators<'a> {
    lists: BTreeMap<Labelled<'a>, Vec<u32>>,
}

impl<'a> Locators<'a> {
    /// The locators of this linkbase.
    pub(crate) fn of(alloc: Global, tree: &'a Tree) -> Result<Locators<'a>, Memory>
        ensures { IfOk result (λ found. AreLocators found tree.now) }
    {
        let mut lists = BTreeMap::new(alloc);
        for at in 0..tree.count() {
            put_node(alloc, &mut lists, tree, at)?;
        }
        Ok(Locators { lists })
    }

    /// The locators of an extended link with this label, in the order of the document.
    pub(crate) fn locators_with_label(&self, link: u32, label: &'a str) -> &[u32]
        ensures { (nodes : List Node) → AreLocators self.now nodes → result.now ≡ locators nodes link label.now }
    {
        list_of(&self.lists, &Labelled { link, label })
    }
}

// The link and the label of a node that is a locator.
fn labelled_at<'a>(tree: &'a Tree, at: u32) -> Option<Labelled<'a>>
    requires { at < length tree.now }
    ensures { option_map labelled_view result ≡ labelled_at tree.now at }
{
    if !is_linked_locator(tree, at) {
        return None;
    }
    let Some(link) = tree.parent_of(at) else {
        return None;
    };
    match xlink_at(tree, at, "label") {
        Some(label) => Some(Labelled { link, label }),
        None => None,
    }
}

// Puts a node, where it is a locator, behind those that have its link and its label.
fn put_node<'a>(
    alloc: Global,
    lists: &mut BTreeMap<Labelled<'a>, Vec<u32>>,
    tree: &'a Tree,
    at: u32,
) -> Result<(), Memory>
    requires { at < length tree.now }
    ensures { OnOk result (AreLabelled lists.old tree.now at → AreLabelled lists.new tree.now (at + 1)) }
{
    if let Some(key) = labelled_at(tree, at) {
        put_last(alloc, lists, key, at)?;
    }
    Ok(())
}
