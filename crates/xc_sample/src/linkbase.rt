// The linkbase: a locator for each node, and an arc from each node to each of its children.
ghost use Rattle.std.specs.Prelude.{◌≡◌, ◌≤◌, ◌<◌, ◌++◌, IfOk, OnOk, string_bytes};
ghost use Rattle.std.specs.List.{flat_map};
ghost use Rattle.xc_sample.specs.Samples.{arc_line, arc_lines, linkbase_text, locator_line, nodes};

use crate::numbers::push_two;
use std::alloc::{AllocError, Global};

const HEAD: &str =
    "<?xml version=\"1.0\" encoding=\"UTF-8\"?>\n<link:linkbase xmlns:link=\"http://www.xbrl.org/2003/linkbase\" xmlns:xlink=\"http://www.w3.org/1999/xlink\">\n<link:calculationLink xlink:type=\"extended\" xlink:role=\"urn:xcalc:sample\">\n";

/// The linkbase of a sample of this many nodes.
pub(crate) fn linkbase_text(alloc: Global, count: u32) -> Result<String, AllocError>
    requires { count ≤ 100000 }
    ensures { IfOk result (λ text. string_bytes text ≡ linkbase_text count) }
{
    let mut out = String::from_str(alloc, HEAD)?;
    push_locators(&mut out, count)?;
    push_arcs(&mut out, count)?;
    out.push_str("</link:calculationLink>\n</link:linkbase>\n")?;
    Ok(out)
}

// A locator for each node, in order.
fn push_locators(out: &mut String, count: u32) -> Result<(), AllocError>
    ensures { OnOk result (string_bytes out.new ≡ string_bytes out.old ++ flat_map locator_line (nodes count)) }
{
    for node in 0..count {
        push_locator(out, node)?;
    }
    Ok(())
}

fn push_locator(out: &mut String, node: u32) -> Result<(), AllocError>
    ensures { OnOk result (string_bytes out.new ≡ string_bytes out.old ++ locator_line node) }
{
    let number = node as u64;
    push_two(
        out,
        "<link:loc xlink:type=\"locator\" xlink:href=\"sample.xsd#s_N",
        number,
        "\" xlink:label=\"L",
        number,
        "\"/>\n",
    )
}

// The arcs of all nodes, in order.
fn push_arcs(out: &mut String, count: u32) -> Result<(), AllocError>
    requires { count ≤ 100000 }
    ensures { OnOk result (string_bytes out.new ≡ string_bytes out.old ++ flat_map (λ i. arc_lines count i) (nodes count)) }
{
    for node in 0..count {
        push_arcs_from(out, count, node)?;
    }
    Ok(())
}

// The arcs from a node to its children.
fn push_arcs_from(out: &mut String, count: u32, node: u32) -> Result<(), AllocError>
    requires { node < 100000 }
    ensures { OnOk result (string_bytes out.new ≡ string_bytes out.old ++ arc_lines count node) }
{
    let first = 2 * node + 1;
    let second = 2 * node + 2;
    if second < count {
        push_arc(out, node, first)?;
        push_arc(out, node, second)?;
        return Ok(());
    }
    if first < count {
        push_arc(out, node, first)?;
        return Ok(());
    }
    Ok(())
}

fn push_arc(out: &mut String, node: u32, child: u32) -> Result<(), AllocError>
    ensures { OnOk result (string_bytes out.new ≡ string_bytes out.old ++ arc_line node child) }
{
    let from = node as u64;
    let to = child as u64;
    push_two(
        out,
        "<link:calculationArc xlink:type=\"arc\" xlink:arcrole=\"https://xbrl.org/2023/arcrole/summation-item\" xlink:from=\"L",
        from,
        "\" xlink:to=\"L",
        to,
        "\" order=\"1\" weight=\"1\"/>\n",
    )
}
