// The report: a fact for each node.
ghost use Rattle.std.specs.Prelude.{◌≡◌, ◌+◌, ◌-◌, ◌≤◌, ◌<◌, ◌++◌, IfOk, OnOk, codes, decimal, length, string_bytes};
ghost use Rattle.std.specs.List.{flat_map, range_with_len};
ghost use Rattle.xc_sample.specs.Samples.{fact, fact_with, report_text};
ghost use Rattle.xc_sample.specs.Steps.Backwards.{AreLastValues};

use crate::numbers::{push_number, push_two};
use crate::values::{value_of, values};
use std::alloc::{AllocError, Global};
use xc_lists::Memory;

const HEAD: &str =
    "{\"documentInfo\":{\"documentType\":\"https://xbrl.org/2021/xbrl-json\",\"namespaces\":{\"eg\":\"urn:xcalc:sample\",\"e\":\"http://example.com/e\",\"iso4217\":\"http://www.xbrl.org/2003/iso4217\",\"cur\":\"http://www.xbrl.org/2003/iso4217\"},\"taxonomy\":[\"sample.xsd\"]},\"facts\":{";

/// The report of a sample of this many nodes.
pub(crate) fn report_text(alloc: Global, count: u32) -> Result<String, Memory>
    requires some { 0 < count }
    requires few { count ≤ 100000 }
    ensures { IfOk result (λ text. string_bytes text ≡ report_text count) }
{
    let values = values(alloc, count)?;
    let mut out = String::from_str(alloc, HEAD)?;
    push_fact_of(&mut out, &values, count, 0)?;
    push_further_facts(&mut out, &values, count)?;
    out.push_str("}}")?;
    Ok(out)
}

// The facts of all nodes but the first, in order, each behind a comma.
fn push_further_facts(out: &mut String, values: &[u64], count: u32) -> Result<(), AllocError>
    requires some { 0 < count }
    requires few { count ≤ 100000 }
    requires all { length values.now ≡ count }
    requires values { AreLastValues count values.now }
    ensures { OnOk result (string_bytes out.new ≡ string_bytes out.old ++ flat_map (λ i. codes "," ++ fact count i) (range_with_len 1 (count - 1))) }
{
    for node in 1..count {
        push_further_fact(out, values, count, node)?;
    }
    Ok(())
}

fn push_further_fact(
    out: &mut String,
    values: &[u64],
    count: u32,
    node: u32,
) -> Result<(), AllocError>
    requires there { node < count }
    requires few { count ≤ 100000 }
    requires all { length values.now ≡ count }
    requires values { AreLastValues count values.now }
    ensures { OnOk result (string_bytes out.new ≡ string_bytes out.old ++ (codes "," ++ fact count node)) }
{
    out.push_str(",")?;
    push_fact_of(out, values, count, node)
}

// The fact of a node.
fn push_fact_of(out: &mut String, values: &[u64], count: u32, node: u32) -> Result<(), AllocError>
    requires there { node < count }
    requires few { count ≤ 100000 }
    requires all { length values.now ≡ count }
    requires values { AreLastValues count values.now }
    ensures { OnOk result (string_bytes out.new ≡ string_bytes out.old ++ fact count node) }
{
    push_fact(out, node, value_of(values, count, node))
}

fn push_fact(out: &mut String, node: u32, value: u64) -> Result<(), AllocError>
    ensures { OnOk result (string_bytes out.new ≡ string_bytes out.old ++ fact_with value node) }
{
    let number = node as u64;
    push_two(
        out,
        "\"f",
        number,
        "\":{\"value\":\"",
        value,
        "\",\"decimals\":0,\"dimensions\":{\"concept\":\"eg:N",
    )?;
    push_number(out, number)?;
    out.push_str(
        "\",\"entity\":\"e:1\",\"period\":\"2024-01-01T00:00:00\",\"unit\":\"iso4217:EUR\"}}",
    )?;
    Ok(())
}
