// The arcs of a linkbase document, in reading order, and the first rule that it breaks.
ghost use Rattle.std.specs.Prelude.{◌≡◌, ◌<◌, ◌++◌, ◌⊎◌, Some, None, length, map, All, IfOk, IfErr, OnOk};
ghost use Rattle.xc_calc.specs.Ends.{concept_named_at, sources, targets};
ghost use Rattle.xc_calc.specs.Steps.Labels.{AreLocators};
ghost use Rattle.xc_calc.specs.Linked.{arc_between, arcs_between, concepts_at, arcs_of_element, arcs_at, arcs_in};
ghost use Rattle.xc_calc.specs.Rules.{kind_fault, locator_fault, ends_fault, arc_fault, broken_at, first_broken};
ghost use Rattle.xc_calc.specs.Steps.{drawn_view};
ghost use Rattle.xc_lists.specs.Places.{first_given};

use crate::arc::{Arc, ArcKind, ListedArc};
use crate::drawn::{Drawn, arc_element_at};
use crate::elements::is_chosen;
use crate::ends::{concept_named_at, end_at};
use crate::fault::LinkFault;
use crate::locators::Locators;
use std::alloc::Global;
use xc_concepts::{Concepts, Kind};
use xc_elements::Tree;
use xc_lists::Memory;
use xc_names::NameId;

// The fault of a locator whose concept has this kind.
fn kind_fault(at: u32, kind: Kind) -> Option<LinkFault>
    ensures { result ≡ kind_fault at kind }
{
    match kind {
        Kind::Decimal => None,
        Kind::Other => Some(LinkFault::NodeNotDecimal(at)),
        Kind::Unknown => Some(LinkFault::UnknownType(at)),
    }
}

// The concept that a locator names, or the first rule that the locator breaks.
fn concept_at(tree: &Tree, concepts: &Concepts, at: u32) -> Result<NameId, LinkFault>
    requires { at < length tree.now }
    ensures concept { IfOk result (λ concept. concept_named_at concepts.now tree.now at ≡ Some concept) }
    ensures sound { OnOk result (locator_fault concepts.now tree.now at ≡ None) }
    ensures fault { IfErr result (λ e. locator_fault concepts.now tree.now at ≡ Some e) }
{
    let Some(concept) = concept_named_at(tree, concepts, at) else {
        return Err(LinkFault::Unresolved(at));
    };
    match kind_fault(at, concepts.kind(concept)) {
        Some(fault) => Err(fault),
        None => Ok(concept),
    }
}

// The concepts that locators name, or the first rule that one of the locators breaks.
fn concepts_at(
    alloc: Global,
    tree: &Tree,
    concepts: &Concepts,
    locators: &[u32],
) -> Result<Vec<NameId>, LinkFault>
    requires { All (λ at. at < length tree.now) locators.now }
    ensures concepts { IfOk result (λ found. found.items ≡ concepts_at concepts.now tree.now locators.now) }
    ensures sound { OnOk result (first_given (locator_fault concepts.now tree.now) locators.now ≡ None) }
    ensures fault { IfErr result (λ e. (e ≡ LinkFault.Memory) ⊎ (first_given (locator_fault concepts.now tree.now) locators.now ≡ Some e)) }
{
    let mut found = Vec::new(alloc);
    for at in locators {
        found.push(concept_at(tree, concepts, *at)?)?;
    }
    Ok(found)
}

// The arc of an arc element between two concepts.
fn arc_between(drawn: &Drawn, from: NameId, to: NameId) -> Result<ListedArc, Memory>
    ensures { IfOk result (λ arc. arc ≡ arc_between (drawn_view drawn.now) from to) }
{
    Ok(ListedArc {
        role: drawn.role.share()?,
        arc: Arc {
            from,
            to,
            weight: drawn.weight,
        },
        order: drawn.order,
        others: drawn.others.share()?,
        priority: drawn.priority,
        usage: drawn.usage,
    })
}

// Puts the arcs from one concept at the end of a list.
fn add_from(
    arcs: &mut Vec<ListedArc>,
    drawn: &Drawn,
    from: NameId,
    to: &[NameId],
) -> Result<(), Memory>
    ensures { OnOk result (arcs.new.items ≡ arcs.old.items ++ map (arc_between (drawn_view drawn.now) from) to.now) }
{
    for target in to {
        arcs.push(arc_between(drawn, from, *target)?)?;
    }
    Ok(())
}

// Puts the arcs of an arc element at the end of a list, source by source.
fn add_between(
    arcs: &mut Vec<ListedArc>,
    drawn: &Drawn,
    from: &[NameId],
    to: &[NameId],
) -> Result<(), Memory>
    ensures { OnOk result (arcs.new.items ≡ arcs.old.items ++ arcs_between (drawn_view drawn.now) from.now to.now) }
{
    for source in from {
        add_from(arcs, drawn, *source, to)?;
    }
    Ok(())
}

// The locators at both ends of an arc element, of which there is one at least at each.
fn ends_at<'a, 'b>(
    found: &'b Locators<'a>,
    tree: &'a Tree,
    at: u32,
) -> Result<(&'b [u32], &'b [u32]), LinkFault>
    requires found { AreLocators found.now tree.now }
    requires within { at < length tree.now }
    ensures sources { IfOk result (λ ends. ends.0.now ≡ sources tree.now at) }
    ensures targets { IfOk result (λ ends. ends.1.now ≡ targets tree.now at) }
    ensures sound { OnOk result (ends_fault tree.now at ≡ None) }
    ensures fault { IfErr result (λ e. ends_fault tree.now at ≡ Some e) }
{
    let sources = end_at(found, tree, at, "from");
    let targets = end_at(found, tree, at, "to");
    if sources.is_empty() || targets.is_empty() {
        return Err(LinkFault::NoLocator(at));
    }
    Ok((sources, targets))
}

// Puts the arcs of a chosen arc element at the end of a list.
fn add_element<'a>(
    alloc: Global,
    arcs: &mut Vec<ListedArc>,
    found: &Locators<'a>,
    tree: &'a Tree,
    concepts: &Concepts,
    at: u32,
) -> Result<(), LinkFault>
    requires found { AreLocators found.now tree.now }
    requires within { at < length tree.now }
    ensures added { OnOk result (arcs.new.items ≡ arcs.old.items ++ arcs_of_element concepts.now tree.now at) }
    ensures sound { OnOk result (arc_fault concepts.now tree.now at ≡ None) }
    ensures fault { IfErr result (λ e. (e ≡ LinkFault.Memory) ⊎ (arc_fault concepts.now tree.now at ≡ Some e)) }
{
    let drawn = arc_element_at(alloc, tree, at)?;
    let (sources, targets) = ends_at(found, tree, at)?;
    let from = concepts_at(alloc, tree, concepts, sources)?;
    let to = concepts_at(alloc, tree, concepts, targets)?;
    add_between(arcs, &drawn, from.as_slice(), to.as_slice())?;
    Ok(())
}

// Puts the arcs of a node at the end of a list.
fn add_node<'a>(
    alloc: Global,
    arcs: &mut Vec<ListedArc>,
    kind: ArcKind,
    found: &Locators<'a>,
    tree: &'a Tree,
    concepts: &Concepts,
    at: u32,
) -> Result<(), LinkFault>
    requires found { AreLocators found.now tree.now }
    requires within { at < length tree.now }
    ensures added { OnOk result (arcs.new.items ≡ arcs.old.items ++ arcs_at kind concepts.now tree.now at) }
    ensures sound { OnOk result (broken_at kind concepts.now tree.now at ≡ None) }
    ensures fault { IfErr result (λ e. (e ≡ LinkFault.Memory) ⊎ (broken_at kind concepts.now tree.now at ≡ Some e)) }
{
    if is_chosen(kind, tree, at) {
        add_element(alloc, arcs, found, tree, concepts, at)?;
    }
    Ok(())
}

/// The arcs of a linkbase in reading order, or the first rule that it breaks.
pub(crate) fn arcs_in(
    alloc: Global,
    kind: ArcKind,
    tree: &Tree,
    concepts: &Concepts,
) -> Result<Vec<ListedArc>, LinkFault>
    ensures arcs { IfOk result (λ arcs. arcs.items ≡ arcs_in kind concepts.now tree.now) }
    ensures sound { OnOk result (first_broken kind concepts.now tree.now ≡ None) }
    ensures fault { IfErr result (λ e. (e ≡ LinkFault.Memory) ⊎ (first_broken kind concepts.now tree.now ≡ Some e)) }
{
    let found = Locators::of(alloc, tree)?;
    let mut arcs = Vec::new(alloc);
    for at in 0..tree.count() {
        add_node(alloc, &mut arcs, kind, &found, tree, concepts, at)?;
    }
    Ok(arcs)
}
