// The schema: a concept for each node.
ghost use Rattle.std.specs.Prelude.{◌≡◌, ◌++◌, IfOk, OnOk, string_bytes};
ghost use Rattle.std.specs.List.{flat_map};
ghost use Rattle.xc_sample.specs.Samples.{element_line, nodes, schema_text};

use crate::numbers::push_two;
use std::alloc::{AllocError, Global};

const HEAD: &str =
    "<?xml version=\"1.0\" encoding=\"UTF-8\"?>\n<xs:schema xmlns:xs=\"http://www.w3.org/2001/XMLSchema\" xmlns:xbrli=\"http://www.xbrl.org/2003/instance\" targetNamespace=\"urn:xcalc:sample\">\n";

/// The schema of a sample of this many nodes.
pub(crate) fn schema_text(alloc: Global, count: u32) -> Result<String, AllocError>
    ensures { IfOk result (λ text. string_bytes text ≡ schema_text count) }
{
    let mut out = String::from_str(alloc, HEAD)?;
    push_elements(&mut out, count)?;
    out.push_str("</xs:schema>\n")?;
    Ok(out)
}

// A line for each node, in order.
fn push_elements(out: &mut String, count: u32) -> Result<(), AllocError>
    ensures { OnOk result (string_bytes out.new ≡ string_bytes out.old ++ flat_map element_line (nodes count)) }
{
    for node in 0..count {
        push_element(out, node)?;
    }
    Ok(())
}

// The concept of a node.
fn push_element(out: &mut String, node: u32) -> Result<(), AllocError>
    ensures { OnOk result (string_bytes out.new ≡ string_bytes out.old ++ element_line node) }
{
    let number = node as u64;
    push_two(
        out,
        "<xs:element name=\"N",
        number,
        "\" id=\"s_N",
        number,
        "\" type=\"xbrli:monetaryItemType\"/>\n",
    )
}
