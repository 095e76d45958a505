// Questions to a tree and to its elements.
//
// `= tree` begins with the tree of the document that is its text. `= count` asks for the number of
// elements, and of the element with the number N, `= parent N` asks for the number of the one that it
// stands directly in, `= attribute N SPACE LOCAL` and `= trimmed N SPACE LOCAL` for the value of an
// attribute, with and without the white space around it, and `= space N PREFIX` for the namespace of a
// prefix.

use crate::cases::Part;
use crate::taxonomies::{around_space, tree_of};
use std::alloc::{AllocError, Global};
use xc_elements::Tree;

/// The words of each part, and behind them the answer.
pub fn show(alloc: Global, parts: &[Part]) -> Result<String, AllocError> {
    let mut out = String::new(alloc);
    let mut tree = None;
    for part in parts {
        show_part(alloc, &mut out, &mut tree, part)?;
    }
    Ok(out)
}

fn show_part(
    alloc: Global,
    out: &mut String,
    tree: &mut Option<Tree>,
    part: &Part,
) -> Result<(), AllocError> {
    let words = part.words.as_str();
    out.push_str(words)?;
    if words == "tree" {
        *tree = tree_of(alloc, part.text.as_str());
        return out.push('\n');
    }
    match tree {
        Some(tree) => answer(alloc, out, tree, words),
        None => out.push_str(" no tree\n"),
    }
}

fn answer(alloc: Global, out: &mut String, tree: &Tree, words: &str) -> Result<(), AllocError> {
    let (head, rest) = around_space(words);
    if head == "count" {
        return push_number(alloc, out, Some(tree.count()));
    }
    let (number, rest) = around_space(rest);
    match number.parse::<u32>() {
        Ok(node) => answer_of_node(alloc, out, tree, node, head, rest),
        Err(_) => push_text(out, None),
    }
}

fn answer_of_node(
    alloc: Global,
    out: &mut String,
    tree: &Tree,
    node: u32,
    head: &str,
    words: &str,
) -> Result<(), AllocError> {
    if node >= tree.count() {
        return push_text(out, None);
    }
    let (one, other) = around_space(words);
    match head {
        "parent" => push_number(alloc, out, tree.parent_of(node)),
        "attribute" => push_text(out, tree.attribute(node, one, other)),
        "trimmed" => push_text(out, tree.trimmed_attribute(node, one, other)),
        "space" => push_text(out, tree.space_of(node, one)),
        _ => out.push_str(" is not asked here\n"),
    }
}

fn push_number(alloc: Global, out: &mut String, number: Option<u32>) -> Result<(), AllocError> {
    match number {
        Some(number) => out.push_str(format!(in alloc; " {number}\n")?.as_str()),
        None => push_text(out, None),
    }
}

// A text between bars, so that the white space around it is seen.
fn push_text(out: &mut String, text: Option<&str>) -> Result<(), AllocError> {
    let Some(text) = text else {
        return out.push_str(" none\n");
    };
    out.push_str(" |")?;
    out.push_str(text)?;
    out.push_str("|\n")
}
