// The texts of a sample.
ghost use Rattle.std.specs.Prelude.{◌≡◌, ◌≤◌, IfOk, string_bytes};
ghost use Rattle.xc_sample.specs.Samples.{value};
ghost use Rattle.xc_sample.specs.Texts.{IsSampleOf, AreShort};

use crate::facts::report_text;
use crate::linkbase::linkbase_text;
use crate::schema::schema_text;
use crate::types::Sample;
use crate::values::{value_of, values};
use std::alloc::Global;
use xc_lists::Memory;

/// The sample of this many nodes, from 2 to 100,000. Node i has the nodes 2i + 1 and 2i + 2 below it as its children, as far
/// as the sample has them. The names of its files are `sample.xsd`, `sample-calc.xml` and `sample.json`. The only error is
/// want of memory.
pub fn sample(alloc: Global, count: u32) -> Result<Sample, Memory>
    requires some { 2 ≤ count }
    requires few { count ≤ 100000 }
    ensures texts { IfOk result (IsSampleOf count) }
    ensures short { IfOk result AreShort }
{
    let schema = schema_text(alloc, count)?;
    let linkbase = linkbase_text(alloc, count)?;
    let report = report_text(alloc, count)?;
    Ok(Sample {
        schema: bytes_of(schema),
        linkbase: bytes_of(linkbase),
        report: bytes_of(report),
    })
}

/// The value that the sample of this many nodes reports of node 0. The only error is want of memory.
pub fn root_value(alloc: Global, count: u32) -> Result<u64, Memory>
    requires some { 2 ≤ count }
    requires few { count ≤ 100000 }
    ensures { IfOk result (λ root. root ≡ value count 0) }
{
    let values = values(alloc, count)?;
    Ok(value_of(&values, count, 0))
}

// The bytes of a text.
fn bytes_of(text: String) -> Vec<u8>
    ensures { result.items ≡ string_bytes text }
{
    text.into_bytes()
}
