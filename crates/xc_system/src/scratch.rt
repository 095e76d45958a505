// Room for checks.
ghost use Rattle.std.specs.Prelude.{◌≡◌, ◌∷◌, [], IfOk, length};

use std::alloc::Global;
use xc_frac::{Exact, Frac, Wide};
use xc_lists::{Items, Memory};

/// Room for checks of a system, with one entry of each list for each point. No answer depends on what the
/// entries hold before a call.
#[derive(Debug, Drop)]
pub struct Scratch {
    pub marks: Items<Option<u32>>,
    pub sums: Items<Frac>,
    pub stops: Items<Option<Wide>>,
}

impl Scratch {
    /// Room for a system with this many points.
    pub fn new(alloc: Global, points: u32) -> Result<Scratch, Memory>
        ensures marks { IfOk result (λ scratch. length scratch.marks ≡ points) }
        ensures sums { IfOk result (λ scratch. length scratch.sums ≡ points) }
        ensures stops { IfOk result (λ scratch. length scratch.stops ≡ points) }
    {
        let mut marks = Vec::new(alloc);
        let mut sums = Vec::new(alloc);
        let mut stops = Vec::new(alloc);
        for _point in 0..points {
            marks.push(None)?;
            sums.push(Frac::zero())?;
            stops.push(None)?;
        }
        Ok(Scratch {
            marks: Items::of(marks),
            sums: Items::of(sums),
            stops: Items::of(stops),
        })
    }
}
