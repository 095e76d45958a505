// Ranges and rows that make a forest, solved by numbers or contradicted.
ghost use Rattle.std.specs.Prelude.{ℕ, ◌<◌, ◌^◌, length, map};
ghost use Rattle.xc_forest.specs.Forests.{AreRows, HasNoCycle};
ghost use Rattle.xc_joint.specs.Small.{closed_pairs};
ghost use Rattle.xc_joint.specs.Solved.{HaveNumbers, IsOfNarrow, SolvesRanges};

use crate::closed::closed_ranges;
use crate::laws::{
    narrow_forests_have_numbers, narrow_forests_have_room, numbers_of_solutions_solve,
};
use crate::small::{Halt, numbers};
use std::alloc::Global;
use xc_forest::{Forest, Settled, propagate};
use xc_frac::{Delta, Frac};
use xc_interval::Interval;
use xc_lists::Items;

/// What solves ranges and rows, or contradicts them.
#[derive(Debug, Drop)]
pub enum Solution {
    /// A number for each range.
    Numbers(Items<Frac>),
    /// Multipliers: of the rows, and of the ends.
    Contradiction {
        /// One for each row: 1, -1 or 0.
        rows: Items<i8>,
        /// One for each range: 1 for its low end, -1 for its high end, 0 for neither.
        ends: Items<i8>,
    },
}

/// Solves ranges and rows that have no cycle by numbers, or contradicts them. The ranges are those of a component whose
/// numbers leave room for their sums, so that no operation passes: nothing else is answered but want of memory.
pub fn solve(
    alloc: Global,
    ranges: &[Interval<Frac>],
    rows: Items<Items<(u32, bool)>>,
) -> Result<Solution, Halt>
    requires points { length ranges.now < 2 ^ 31 }
    requires few { length rows < 2 ^ 31 }
    requires rows { AreRows (length ranges.now) rows }
    requires no_cycle { HasNoCycle (length ranges.now) rows }
    requires ranges { HaveNumbers ranges.now }
    requires narrow { IsOfNarrow (map closed_pairs ranges.now) }
    ensures { SolvesRanges rows ranges.now result }
{
    narrow_forests_have_room::<Delta<Frac>>();
    narrow_forests_have_numbers();
    numbers_of_solutions_solve();
    let closed = closed_ranges(alloc, ranges)?;
    let forest = Forest {
        ranges: Items::of(closed),
        rows,
    };
    match propagate(alloc, &forest)? {
        Settled::Feasible(values) => {
            let numbers = numbers(alloc, ranges, values.as_slice())?;
            Ok(Solution::Numbers(Items::of(numbers)))
        }
        Settled::Infeasible { rows, ends } => Ok(Solution::Contradiction { rows, ends }),
    }
}
