// Sums of intervals, each times a weight.
ghost use Rattle.std.specs.Prelude.{◌≡◌, ◌≢◌, ◌+◌, ◌<◌, ◌↔◌, ℕ, pos, map, All, IsTrue};
ghost use Rattle.xc_model.specs.Fraction.{Fraction, SameNumber, whole};
ghost use Rattle.xc_interval.specs.Arithmetic.{IsSumOfNumbers};
ghost use Rattle.xc_interval.specs.Intervals.{numbers_of, HasNumber};
ghost use Rattle.xc_bind.specs.Placed.{IsInside};
ghost use Rattle.xc_verdict.specs.Ranges.{point_of};
ghost use Rattle.xc_verdict.specs.Steps.Sums.{IsSomeInterval, AllAreMet, IsWeighted, IsSumOf, Holds, AreCounted, HasRoomFor, HasRoomTimes, IsCountedTimes};
ghost use Rattle.xc_verdict.specs.Widths.{IsNarrowBinding};

use crate::ranges::interval_at;
use xc_bind::Binding;
use xc_decimal::Decimal;
use xc_frac::{Exact, Frac};
use xc_interval::{End, Interval, laws};
use xc_points::Point;

// What the terms of a narrow binding may add up to.
pub fn sum_of(binding: &Binding, points: &[Point]) -> Interval<Frac>
    requires inside { All (IsInside points.now) binding.now.terms }
    requires met { AllAreMet points.now (map point_of binding.now.terms) }
    requires narrow { IsNarrowBinding points.now binding.now }
    ensures { Holds result (IsSumOf points.now binding.now.terms) }
{
    laws::scales();
    let mut sum = zero_interval();
    for term in binding.terms.as_slice() {
        let interval = interval_at(points, term.point);
        sum = plus(&sum, &times_weight(&interval, term.weight));
    }
    sum
}

// The interval of 0 alone.
fn zero_interval() -> Interval<Frac>
    ensures numbers { Holds result (λ x. SameNumber x (whole (pos 0))) }
    ensures counted { (unit : ℕ) → 0 < unit → AreCounted unit 0 result }
    ensures some { IsSomeInterval result }
{
    let zero = Frac::zero();
    Interval {
        low: End::Closed(zero),
        high: End::Closed(zero),
    }
}

// The sum of two intervals that have room for it.
fn plus(one: &Interval<Frac>, other: &Interval<Frac>) -> Interval<Frac>
    requires some { IsSomeInterval one.now }
    requires others { IsSomeInterval other.now }
    requires room { HasRoomFor one.now other.now }
    ensures numbers { (x : Fraction) → HasNumber (numbers_of result) x
        ↔ IsSumOfNumbers (numbers_of one.now) (numbers_of other.now) x }
    ensures counted { (unit n m : ℕ) → AreCounted unit n one.now → AreCounted unit m other.now → AreCounted unit (n + m) result }
    ensures some { IsSomeInterval result }
{
    match one.plus(other) {
        Ok(sum) => sum,
        Err(_) => unreachable!(),
    }
}

// An interval times a weight. Weights of 1 and -1 cost no multiplication.
fn times_weight(interval: &Interval<Frac>, weight: Decimal) -> Interval<Frac>
    requires some { IsSomeInterval interval.now }
    requires room { HasRoomTimes interval.now weight }
    ensures numbers { Holds result (IsWeighted weight (HasNumber (numbers_of interval.now))) }
    ensures counted { IsCountedTimes interval.now weight result }
    ensures some { IsSomeInterval result }
{
    if is_whole(weight, 1) {
        return *interval;
    }
    if is_whole(weight, -1) {
        return interval.negated();
    }
    if is_whole(weight, 0) {
        laws::ends_tell();
        return zero_interval();
    }
    times_nonzero_weight(interval, weight)
}

// Whether a weight is this whole number.
fn is_whole(weight: Decimal, number: i128) -> bool
    ensures { IsTrue result ↔ ((weight.digits ≡ number) × (weight.places ≡ 0)) }
{
    weight.digits() == number && weight.places() == 0
}

// An interval times a weight other than 0.
fn times_nonzero_weight(interval: &Interval<Frac>, weight: Decimal) -> Interval<Frac>
    requires some { IsSomeInterval interval.now }
    requires not_zero { weight.digits ≢ pos 0 }
    requires room { HasRoomTimes interval.now weight }
    ensures numbers { Holds result (IsWeighted weight (HasNumber (numbers_of interval.now))) }
    ensures counted { IsCountedTimes interval.now weight result }
    ensures some { IsSomeInterval result }
{
    match interval.scaled(weight.to_frac()) {
        Ok(product) => product,
        Err(_) => unreachable!(),
    }
}
