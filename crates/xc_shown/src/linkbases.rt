// Linkbases over the concepts of schemas: their networks of effective arcs, the concepts at their
// ends, and what linkbases are refused for.
//
// `= case` begins anew, without schemas and without arcs. `= schema FILE` adds the schema of its text,
// `= arcs new` or `= arcs old` says which arcs are chosen, and `= linkbase` adds the linkbase of its
// text. `= networks` and `= wanted` ask.

use crate::cases::Part;
use crate::taxonomies::{Taxonomy, add_schema, push_ids, push_refusal, tree_of};
use std::alloc::{AllocError, Global};
use xc_calc::{Arc, ArcKind, Arcs, LinkFault, Network, is_linkbase};
use xc_elements::Tree;

/// A line for each schema and each linkbase; for each network its role, and behind it its arcs as
/// total, contributor, and digits and places of the weight; and the numbers that are wanted.
pub fn show(alloc: Global, parts: &[Part]) -> Result<String, AllocError> {
    let mut out = String::new(alloc);
    let mut taxonomy = Taxonomy::new(alloc);
    let mut arcs = Arcs::new(alloc, ArcKind::New);
    for part in parts {
        show_part(alloc, &mut out, &mut taxonomy, &mut arcs, part)?;
    }
    Ok(out)
}

fn show_part(
    alloc: Global,
    out: &mut String,
    taxonomy: &mut Taxonomy,
    arcs: &mut Arcs,
    part: &Part,
) -> Result<(), AllocError> {
    let words = part.words.as_str();
    if let Some(file) = words.strip_prefix("schema ") {
        return add_schema(alloc, out, taxonomy, file, part.text.as_str());
    }
    if words.strip_prefix("case ").is_some() {
        *taxonomy = Taxonomy::new(alloc);
        out.push_str(words)?;
        return out.push_str("\n");
    }
    match words {
        "arcs new" => {
            *arcs = Arcs::new(alloc, ArcKind::New);
            Ok(())
        }
        "arcs old" => {
            *arcs = Arcs::new(alloc, ArcKind::Old);
            Ok(())
        }
        "linkbase" => add_linkbase(alloc, out, taxonomy, arcs, part.text.as_str()),
        "networks" => show_networks(alloc, out, arcs),
        "wanted" => show_wanted(alloc, out, taxonomy, arcs),
        _ => Ok(()),
    }
}

fn add_linkbase(
    alloc: Global,
    out: &mut String,
    taxonomy: &Taxonomy,
    arcs: &mut Arcs,
    text: &str,
) -> Result<(), AllocError> {
    out.push_str("linkbase")?;
    let Some(tree) = tree_of(alloc, text) else {
        return out.push_str(" is no document\n");
    };
    match add(taxonomy, arcs, &tree) {
        Some(fault) => push_refusal(alloc, out, fault.code(), fault.place()),
        None => out.push_str(" added\n"),
    }
}

fn add(taxonomy: &Taxonomy, arcs: &mut Arcs, tree: &Tree) -> Option<LinkFault> {
    if !is_linkbase(tree) {
        return Some(LinkFault::Memory);
    }
    match arcs.add_linkbase(tree, &taxonomy.concepts) {
        Ok(()) => None,
        Err(fault) => Some(fault),
    }
}

fn show_networks(alloc: Global, out: &mut String, arcs: &Arcs) -> Result<(), AllocError> {
    let Ok(networks) = arcs.effective() else {
        return Err(AllocError);
    };
    out.push_str(format!(in alloc; "networks {}\n", networks.len())?.as_str())?;
    for network in networks.as_slice() {
        show_network(alloc, out, network)?;
    }
    Ok(())
}

fn show_network(alloc: Global, out: &mut String, network: &Network) -> Result<(), AllocError> {
    out.push_str("network ")?;
    out.push_str(network.role.as_str())?;
    out.push_str("\n")?;
    for arc in network.arcs.as_slice() {
        show_arc(alloc, out, *arc)?;
    }
    Ok(())
}

fn show_arc(alloc: Global, out: &mut String, arc: Arc) -> Result<(), AllocError> {
    out.push_str(format!(in alloc; "arc {} {} ", arc.from.0, arc.to.0)?.as_str())?;
    let digits = arc.weight.digits();
    let places = arc.weight.places();
    out.push_str(format!(in alloc; "{digits}/{places}\n")?.as_str())
}

fn show_wanted(
    alloc: Global,
    out: &mut String,
    taxonomy: &Taxonomy,
    arcs: &Arcs,
) -> Result<(), AllocError> {
    let Ok(wanted) = arcs.wanted(&taxonomy.concepts) else {
        return Err(AllocError);
    };
    out.push_str("nodes")?;
    push_ids(alloc, out, wanted.nodes.as_slice())?;
    out.push_str("\ntyped")?;
    push_ids(alloc, out, wanted.typed.as_slice())?;
    out.push_str("\n")
}
