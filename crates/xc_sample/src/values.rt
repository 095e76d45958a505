// The values of the nodes.
ghost use Rattle.std.specs.Prelude.{◌≡◌, ◌+◌, ◌≤◌, ◌<◌, IfOk, length};
ghost use Rattle.xc_sample.specs.Samples.{lift, value};
ghost use Rattle.xc_sample.specs.Steps.Backwards.{AreLastValues};

use std::alloc::Global;
use xc_lists::Memory;

/// The values of all nodes, from the last node to the first: each rests on those of later ones.
pub(crate) fn values(alloc: Global, count: u32) -> Result<Vec<u64>, Memory>
    requires { count ≤ 100000 }
    ensures all { IfOk result (λ values. length values.items ≡ count) }
    ensures values { IfOk result (λ values. AreLastValues count values.items) }
{
    let mut values = Vec::new(alloc);
    for done in 0..count {
        let next = next_value(values.as_slice(), count, count - 1 - done);
        values.push(next)?;
    }
    Ok(values)
}

// The value of a node, by those of all later ones.
fn next_value(later: &[u64], count: u32, node: u32) -> u64
    requires few { count ≤ 100000 }
    requires there { node + 1 + length later.now ≡ count }
    requires later { AreLastValues count later.now }
    ensures { result ≡ value count node }
{
    let first = 2 * node + 1;
    let second = 2 * node + 2;
    if second < count {
        return value_of(later, count, first) + value_of(later, count, second) + lift(count, node);
    }
    if first < count {
        return value_of(later, count, first) + lift(count, node);
    }
    node as u64
}

/// The value of a node among those of the last ones.
pub(crate) fn value_of(last: &[u64], count: u32, node: u32) -> u64
    requires few { count ≤ 100000 }
    requires there { node < count }
    requires listed { count ≤ node + length last.now }
    requires last { AreLastValues count last.now }
    ensures is { result ≡ value count node }
    ensures small { result < 10000000000 }
{
    last[(count - 1 - node) as usize]
}

// 1 where no child has children: the first child has them where any has.
fn lift(count: u32, node: u32) -> u64
    requires { node < 100000 }
    ensures is { result ≡ lift count node }
    ensures small { result ≤ 1 }
{
    if 4 * node + 3 < count { 0 } else { 1 }
}
