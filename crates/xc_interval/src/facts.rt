// The interval of a reported fact (Calculations 1.1).
ghost use Rattle.std.specs.Prelude.{◌≡◌, ℕ, ℤ, pos, ◌^◌, ◌<◌, ◌≤◌, ◌↔◌, unsigned_abs, IfOk, OnOk, IfErr};
ghost use Rattle.xc_model.specs.Fraction.{SameNumber, neg_of, sum_of, difference_of};
ghost use Rattle.xc_model.specs.Ratio.{fraction_of, IsOver};
ghost use Rattle.xc_frac.specs.Passes.{Passes, PassesAs};
ghost use Rattle.xc_frac.specs.declared.wide.Op.{Op};
ghost use Rattle.xc_frac.specs.declared.wide.Wide.{Wide};
ghost use Rattle.xc_interval.specs.Admits.{Admits};
ghost use Rattle.xc_interval.specs.Intervals.{numbers_of, pairs_of, frac_parts, HasNumber, HasNoPair};
ghost use Rattle.xc_interval.specs.Reported.{IsNearPlace, IsSameInterval, reported, rounded, truncated, unit_of, half_of, ReportPasses, PassesWith, TruncationPasses, RoundingPasses};

use crate::ends::End;
use crate::interval::Interval;
use crate::mode::Mode;
use xc_frac::{Frac, Wide, power, ratio};

/// The interval of a fact with this value and decimals, from -37 to 37; without decimals the value
/// alone. Or the operation for an end that passes: under rounding the difference with half a unit of
/// the place, and then the sum; under truncation the sum with a unit for a positive value, and the
/// difference for a negative one (Calculations 1.1).
pub fn reported(value: Frac, decimals: Option<i32>, mode: Mode) -> Result<Interval<Frac>, Wide>
    requires { IsNearPlace decimals }
    // of a value digits / 10 ^ places it has exactly the numbers that the standard's table admits
    ensures admits { (digits : ℤ) (places : ℕ) → IsOver value digits (10 ^ places)
        → IfOk result (λ i. (p : ℤ) (q : ℕ) (positive : 0 < q) → Admits mode decimals digits places p q
        ↔ HasNumber (numbers_of i) (record { num = p; den = q; positive = positive })) }
    ensures ends { IfOk result (λ i. IsSameInterval (numbers_of i) (reported mode decimals (fraction_of value))) }
    ensures some { IfOk result (λ i. ¬ HasNoPair (pairs_of frac_parts i)) }
    ensures fits { OnOk result ((w : Wide) → ¬ ReportPasses mode decimals value w) }
    ensures passes { IfErr result (ReportPasses mode decimals value) }
{
    interval_of(value, decimals, mode)
}

// The same, by its ends.
fn interval_of(value: Frac, decimals: Option<i32>, mode: Mode) -> Result<Interval<Frac>, Wide>
    requires { IsNearPlace decimals }
    ensures ends { IfOk result (λ i. IsSameInterval (numbers_of i) (reported mode decimals (fraction_of value))) }
    ensures fits { OnOk result ((w : Wide) → ¬ ReportPasses mode decimals value w) }
    ensures passes { IfErr result (ReportPasses mode decimals value) }
{
    match decimals {
        None => Ok(alone(value)),
        Some(decimals) => match mode {
            Mode::Rounding => rounded(value, half_of(decimals)),
            Mode::Truncation => truncated(value, unit_of(decimals)),
        },
    }
}

// The interval of one value.
fn alone(value: Frac) -> Interval<Frac>
    ensures { IsSameInterval (numbers_of result) (record { low = End.Closed (fraction_of value); high = End.Closed (fraction_of value) }) }
{
    Interval {
        low: End::Closed(value),
        high: End::Closed(value),
    }
}

// From half a unit below the value to half a unit above it.
fn rounded(value: Frac, half: Frac) -> Result<Interval<Frac>, Wide>
    ensures ends { (d : ℤ) → SameNumber (fraction_of half) (half_of d)
        → IfOk result (λ i. IsSameInterval (numbers_of i) (rounded d (fraction_of value))) }
    ensures fits { (d : ℤ) → SameNumber (fraction_of half) (half_of d)
        → OnOk result ((w : Wide) → ¬ RoundingPasses d value w) }
    ensures passes { (d : ℤ) → SameNumber (fraction_of half) (half_of d)
        → IfErr result (RoundingPasses d value) }
{
    let low = value.sub(half)?;
    let high = value.add(half)?;
    Ok(Interval {
        low: End::Closed(low),
        high: End::Closed(high),
    })
}

// Less than a unit away from 0, and not nearer to it than the value.
fn truncated(value: Frac, unit: Frac) -> Result<Interval<Frac>, Wide>
    ensures ends { (d : ℤ) → SameNumber (fraction_of unit) (unit_of d)
        → IfOk result (λ i. IsSameInterval (numbers_of i) (truncated value.num d (fraction_of value))) }
    ensures fits { (d : ℤ) → SameNumber (fraction_of unit) (unit_of d)
        → OnOk result ((w : Wide) → ¬ TruncationPasses value.num d value w) }
    ensures passes { (d : ℤ) → SameNumber (fraction_of unit) (unit_of d)
        → IfErr result (TruncationPasses value.num d value) }
{
    if value.num() > 0 {
        return above(value, unit);
    }
    if value.num() < 0 {
        return below(value, unit);
    }
    Ok(around(unit))
}

// From the value up to a unit above it, which is left out.
fn above(value: Frac, unit: Frac) -> Result<Interval<Frac>, Wide>
    ensures ends { IfOk result (λ i. IsSameInterval (numbers_of i)
        (record { low = End.Closed (fraction_of value); high = End.Open (sum_of (fraction_of value) (fraction_of unit)) })) }
    ensures fits { OnOk result (¬ Passes Op.Add value unit) }
    ensures passes { IfErr result (PassesAs Op.Add value unit) }
{
    let high = value.add(unit)?;
    Ok(Interval {
        low: End::Closed(value),
        high: End::Open(high),
    })
}

// From a unit below the value, which is left out, up to the value.
fn below(value: Frac, unit: Frac) -> Result<Interval<Frac>, Wide>
    ensures ends { IfOk result (λ i. IsSameInterval (numbers_of i)
        (record { low = End.Open (difference_of (fraction_of value) (fraction_of unit)); high = End.Closed (fraction_of value) })) }
    ensures fits { OnOk result (¬ Passes Op.Sub value unit) }
    ensures passes { IfErr result (PassesAs Op.Sub value unit) }
{
    let low = value.sub(unit)?;
    Ok(Interval {
        low: End::Open(low),
        high: End::Closed(value),
    })
}

// Less than a unit away from 0.
fn around(unit: Frac) -> Interval<Frac>
    ensures { IsSameInterval (numbers_of result)
        (record { low = End.Open (neg_of (fraction_of unit)); high = End.Open (fraction_of unit) }) }
{
    Interval {
        low: End::Open(unit.neg()),
        high: End::Open(unit),
    }
}

// 10^-decimals.
fn unit_of(decimals: i32) -> Frac
    requires { unsigned_abs decimals ≤ 37 }
    ensures { SameNumber (fraction_of result) (unit_of decimals) }
{
    let power = power(decimals.unsigned_abs());
    if decimals < 0 {
        ratio(power as i128, 1)
    } else {
        ratio(1, power)
    }
}

// 10^-decimals / 2.
fn half_of(decimals: i32) -> Frac
    requires { unsigned_abs decimals ≤ 37 }
    ensures { SameNumber (fraction_of result) (half_of decimals) }
{
    let power = power(decimals.unsigned_abs());
    if decimals < 0 {
        ratio(power as i128, 2)
    } else {
        ratio(1, 2 * power)
    }
}
