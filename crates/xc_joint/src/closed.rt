// Ranges with closed ends alone: an open end becomes the closed one beside it.
ghost use Rattle.std.specs.Prelude.{◌≡◌, IfOk, map};
ghost use Rattle.xc_joint.specs.Small.{closed_pairs, pairs};

use crate::small::{high_tiny, low_tiny};
use std::alloc::Global;
use xc_frac::{Delta, Frac};
use xc_interval::{End, Interval};
use xc_lists::Memory;

/// All ranges with closed ends alone.
pub fn closed_ranges(
    alloc: Global,
    ranges: &[Interval<Frac>],
) -> Result<Vec<Interval<Delta<Frac>>>, Memory>
    ensures { IfOk result (λ closed. map pairs closed.items ≡ map closed_pairs ranges.now) }
{
    let mut closed = Vec::new(alloc);
    for range in ranges {
        closed.push(closed_range(range))?;
    }
    Ok(closed)
}

fn closed_range(range: &Interval<Frac>) -> Interval<Delta<Frac>>
    ensures { pairs result ≡ closed_pairs range.now }
{
    let low = Delta {
        real: range.low.value(),
        tiny: low_tiny(range.low),
    };
    let high = Delta {
        real: range.high.value(),
        tiny: high_tiny(range.high),
    };
    Interval {
        low: End::Closed(low),
        high: End::Closed(high),
    }
}
