// Trees of documents, and the first faults of those that have none.
//
// Each line of a part's text is a document, in which a backslash and a letter stand for bytes that
// would not be seen.

use crate::cases::Part;
use crate::escapes::{bytes_of_line, push_escaped};
use std::alloc::{AllocError, Global};
use xc_elements::{Node, Tree, TreeFault, read_tree};

/// Each document, and behind it a line for each element of its tree: the number of its parent, that
/// behind its last descendant, its expanded name, its attributes, and behind `|` its text; or the
/// fault.
pub fn show(alloc: Global, parts: &[Part]) -> Result<String, AllocError> {
    let mut out = String::new(alloc);
    for part in parts {
        show_part(alloc, &mut out, part)?;
    }
    Ok(out)
}

fn show_part(alloc: Global, out: &mut String, part: &Part) -> Result<(), AllocError> {
    for line in part.text.as_str().lines() {
        out.push_str(line)?;
        out.push('\n')?;
        let document = bytes_of_line(alloc, line)?;
        show_document(alloc, out, document.as_slice())?;
    }
    Ok(())
}

fn show_document(alloc: Global, out: &mut String, document: &[u8]) -> Result<(), AllocError> {
    if document.len() >= 1_000_000 {
        return out.push_str("  too long\n");
    }
    match read_tree(alloc, document) {
        Ok(tree) => show_tree(alloc, out, &tree),
        Err(fault) => show_fault(alloc, out, fault),
    }
}

fn show_fault(alloc: Global, out: &mut String, fault: TreeFault) -> Result<(), AllocError> {
    let code = fault.code().unwrap_or("no memory");
    let byte = fault.place().unwrap_or(0);
    out.push_str(format!(in alloc; "  {code} {byte}\n")?.as_str())
}

fn show_tree(alloc: Global, out: &mut String, tree: &Tree) -> Result<(), AllocError> {
    for node in tree.nodes() {
        show_node(alloc, out, node)?;
    }
    Ok(())
}

fn show_node(alloc: Global, out: &mut String, node: &Node) -> Result<(), AllocError> {
    match node.parent {
        Some(parent) => out.push_str(format!(in alloc; "  {parent}")?.as_str())?,
        None => out.push_str("  -")?,
    }
    out.push_str(format!(in alloc; " {} ", node.end)?.as_str())?;
    show_name(out, node.space.as_str(), node.local.as_str())?;
    show_attributes(out, node)?;
    out.push('|')?;
    push_escaped(out, node.text.as_str())?;
    out.push('\n')
}

fn show_attributes(out: &mut String, node: &Node) -> Result<(), AllocError> {
    for attribute in node.attributes.as_slice() {
        out.push(' ')?;
        show_name(out, attribute.space.as_str(), attribute.local.as_str())?;
        out.push('=')?;
        push_escaped(out, attribute.value.as_str())?;
    }
    Ok(())
}

fn show_name(out: &mut String, space: &str, local: &str) -> Result<(), AllocError> {
    if !space.is_empty() {
        out.push('{')?;
        out.push_str(space)?;
        out.push('}')?;
    }
    out.push_str(local)
}
