// The sums of all points at once.
ghost use Rattle.std.specs.Prelude.{◌≡◌, ◌≢◌, ◌<◌, ◌≤◌, ℕ, Ok, length};
ghost use Rattle.xc_verify.specs.Steps.Running.{sum_at};
ghost use Rattle.xc_verify.specs.Sums.{zero_ratio};

use crate::sums::zero;
use xc_frac::{Frac, Wide};

/// The sum of a point.
pub fn sum_at(sums: &[Frac], stops: &[Option<Wide>], point: u32) -> Result<Frac, Wide>
    requires sums { point < length sums.now }
    requires stops { point < length stops.now }
    ensures { result ≡ sum_at sums.now stops.now point }
{
    match stops[point as usize] {
        None => Ok(sums[point as usize]),
        Some(wide) => Err(wide),
    }
}

/// Writes the sum of a point.
pub fn put_sum(sums: &mut [Frac], stops: &mut [Option<Wide>], point: u32, sum: Result<Frac, Wide>)
    requires sums { point < length sums.old }
    requires stops { point < length stops.old }
    ensures here { sum_at sums.new stops.new point ≡ sum }
    ensures elsewhere { (p : ℕ) → p ≢ point → sum_at sums.new stops.new p ≡ sum_at sums.old stops.old p }
{
    match sum {
        Ok(number) => {
            sums[point as usize] = number;
            stops[point as usize] = None;
        }
        Err(wide) => {
            stops[point as usize] = Some(wide);
        }
    }
}

/// Starts the sums of this many points at 0.
pub fn clear(sums: &mut [Frac], stops: &mut [Option<Wide>], points: u32)
    requires sums { points ≤ length sums.old }
    requires stops { points ≤ length stops.old }
    ensures { (p : ℕ) → p < points → sum_at sums.new stops.new p ≡ Ok zero_ratio }
{
    for point in 0..points {
        put_sum(sums, stops, point, Ok(zero()));
    }
}
