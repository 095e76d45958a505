// What the multipliers of a refutation add up to at each point.
ghost use Rattle.std.specs.Prelude.{◌≡◌, ◌<◌, ◌≤◌, ℕ, None, All, length};
ghost use Rattle.xc_system.specs.Systems.{equation_at};
ghost use Rattle.xc_verify.specs.Infeasible.{binding_terms, coefficient_terms, end_term, end_terms, entry_terms, line_objection};
ghost use Rattle.xc_verify.specs.Steps.Running.{Adds, at_point, sum_at};
ghost use Rattle.xc_verify.specs.Sums.{IsNext, IsSumOf, plus_product};

use crate::scratch::{clear, put_sum, sum_at};
use crate::sums::{minus, plus, plus_product};
use xc_frac::{Frac, Wide};
use xc_system::{Refutation, Side, System};

/// Adds up for each point how often it counts: what is listed is gone through once.
pub fn add_refutation(
    system: &System,
    refutation: &Refutation,
    sums: &mut [Frac],
    stops: &mut [Option<Wide>],
)
    requires known { line_objection system.now refutation.now ≡ None }
    requires sums { system.now.points ≤ length sums.old }
    requires stops { system.now.points ≤ length stops.old }
    ensures { (p : ℕ) → p < system.now.points
        → IsSumOf (coefficient_terms system.now refutation.now p) (sum_at sums.new stops.new p) }
{
    clear(sums, stops, system.points());
    add_bindings(system, refutation.bindings(), sums, stops);
    add_ends(Side::Low, system, refutation.lows(), sums, stops);
    add_ends(Side::High, system, refutation.highs(), sums, stops);
}

// Adds what the listed equations give.
fn add_bindings(
    system: &System,
    lines: &[(u32, Frac)],
    sums: &mut [Frac],
    stops: &mut [Option<Wide>],
)
    requires known { All (λ m. m.0 < length system.now.equations) lines.now }
    requires sums { system.now.points ≤ length sums.old }
    requires stops { system.now.points ≤ length stops.old }
    ensures { Adds (binding_terms system.now.equations lines.now)
        (sum_at sums.old stops.old) (sum_at sums.new stops.new) }
{
    for (number, factor) in lines {
        add_equation(system, *number, *factor, sums, stops);
    }
}

// Adds what one equation gives.
fn add_equation(
    system: &System,
    number: u32,
    factor: Frac,
    sums: &mut [Frac],
    stops: &mut [Option<Wide>],
)
    requires known { number < length system.now.equations }
    requires sums { system.now.points ≤ length sums.old }
    requires stops { system.now.points ≤ length stops.old }
    ensures { Adds (entry_terms factor (equation_at system.now.equations number).entries)
        (sum_at sums.old stops.old) (sum_at sums.new stops.new) }
{
    for entry in system.equations()[number as usize].entries.as_slice() {
        add_product(sums, stops, entry.point, factor, entry.weight);
    }
}

// Adds a product at a point.
fn add_product(sums: &mut [Frac], stops: &mut [Option<Wide>], point: u32, left: Frac, right: Frac)
    requires sums { point < length sums.old }
    requires stops { point < length stops.old }
    ensures { Adds (at_point point (plus_product left right)) (sum_at sums.old stops.old) (sum_at sums.new stops.new) }
{
    let sum = plus_product(sum_at(sums, stops, point), left, right);
    put_sum(sums, stops, point, sum);
}

// Adds what the listed ends of one side give.
fn add_ends(
    side: Side,
    system: &System,
    lines: &[(u32, Frac)],
    sums: &mut [Frac],
    stops: &mut [Option<Wide>],
)
    requires known { All (λ m. m.0 < length system.now.bounds) lines.now }
    requires sums { system.now.points ≤ length sums.old }
    requires stops { system.now.points ≤ length stops.old }
    ensures { Adds (end_terms side system.now.bounds lines.now)
        (sum_at sums.old stops.old) (sum_at sums.new stops.new) }
{
    for (fact, factor) in lines {
        add_end(
            side,
            sums,
            stops,
            system.bounds()[*fact as usize].point,
            *factor,
        );
    }
}

// Adds a multiplier of an end at a point.
fn add_end(side: Side, sums: &mut [Frac], stops: &mut [Option<Wide>], point: u32, factor: Frac)
    requires sums { point < length sums.old }
    requires stops { point < length stops.old }
    ensures { Adds (at_point point (end_term side factor)) (sum_at sums.old stops.old) (sum_at sums.new stops.new) }
{
    let sum = with_end(side, sum_at(sums, stops, point), factor);
    put_sum(sums, stops, point, sum);
}

// A sum with a multiplier of an end.
fn with_end(side: Side, sum: Result<Frac, Wide>, factor: Frac) -> Result<Frac, Wide>
    ensures { IsNext sum (end_term side factor) result }
{
    match side {
        Side::Low => plus(sum, factor),
        Side::High => minus(sum, factor),
    }
}
