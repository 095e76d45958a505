// The small number: what stands for the infinitely small parts of values, so that they lie between open ends.
ghost use Rattle.std.specs.Prelude.{◌≡◌, ◌↔◌, IfOk, IfSome, IsOkAnd, IsTrue, ◌<◌, ◌*◌, length, pos, negsuc, if◌then◌else◌};
ghost use Rattle.xc_interval.specs.Ends.{is_open};
ghost use Rattle.xc_joint.specs.Small.{AreSmall, AreAt, AreNumbersOf, Bounds, IsAt, IsPositive, IsPositiveBound, IsSmallAt, IsUnder, pair};
ghost use Rattle.xc_joint.specs.Steps.Gaps.{AreTiny, IsBoundOver, KeepsGap};
ghost use Rattle.xc_joint.specs.Widths.{Width, AreWithin, HasParts, HasRoom, HaveParts, HaveRoom, IsOverFactor, IsWholeOver, IsWithin, IsWithinAt};
ghost use Rattle.xc_joint.specs.declared.small.Halt.TheVariants.{Memory};
ghost use Rattle.xc_model.specs.Fraction.{Fraction, SameNumber, IsBelow, whole};
ghost use Rattle.xc_model.specs.Ratio.{IsOver, fraction_of};

use std::alloc::{AllocError, AllocFailed, Global};
use std::cmp::Ordering;
use xc_frac::{Delta, Exact, Frac, Scalar, Wide, ratio};
use xc_interval::{End, Interval};

/// A positive number that is small enough for each value between the ends of its range; or the operation that
/// passes on the way to it. It is half of the least quotient of a gap of real parts over one of tiny parts, and 1
/// where there is none.
pub fn small_number(ranges: &[Interval<Frac>], values: &[Delta<Frac>]) -> Result<Frac, Wide>
    requires { length values.now ≡ length ranges.now }
    ensures positive { IfOk result (λ s. IsPositive (fraction_of s)) }
    ensures small { IfOk result (λ s. AreSmall ranges.now values.now (fraction_of s)) }
    // where values leave room, nothing passes, and it is a whole number over twice their denominator and a factor
    ensures room { (w : Width) → HasRoom w → 0 < w.d → AreWithin w ranges.now values.now → IsOkAnd result (λ s. IsOverFactor w (w.d * 2) s) }
{
    let bound = bound(ranges, values)?;
    positive_below(bound)
}

/// Why values are not made numbers.
#[derive(Clone, Copy, Debug, PartialEq, Eq)]
pub enum Halt {
    /// Want of memory.
    Memory,
    /// An operation that passes 128 bits.
    Wide(Wide),
}

impl From<xc_lists::Memory> for Halt {
    ghost from_gives = { λ _ e. e ≡ Memory };

    fn from(_: xc_lists::Memory) -> Self {
        Halt::Memory
    }
}

impl From<AllocError> for Halt {
    ghost from_gives = { λ _ e. e ≡ Memory };

    fn from(_: AllocError) -> Self {
        Halt::Memory
    }
}

impl<T: Drop> From<AllocFailed<T>> for Halt {
    ghost from_gives = { λ _ e. e ≡ Memory };

    fn from(_: AllocFailed<T>) -> Self {
        Halt::Memory
    }
}

/// The values as numbers, by one small number that puts each between the ends of its range, open or closed.
pub fn numbers(
    alloc: Global,
    ranges: &[Interval<Frac>],
    values: &[Delta<Frac>],
) -> Result<Vec<Frac>, Halt>
    requires { length values.now ≡ length ranges.now }
    ensures are { IfOk result (λ xs. AreNumbersOf ranges.now values.now xs.items) }
    // where values leave room, nothing passes, and all numbers are whole numbers over one denominator
    ensures room { (w : Width) → HasRoom w → 0 < w.d → AreWithin w ranges.now values.now → HaveRoom (λ xs. xs.items) w result }
{
    match small_number(ranges, values) {
        Ok(small) => numbers_at(alloc, values, small),
        Err(wide) => Err(Halt::Wide(wide)),
    }
}

// The values as numbers, by this small number.
fn numbers_at(alloc: Global, values: &[Delta<Frac>], small: Frac) -> Result<Vec<Frac>, Halt>
    ensures are { IfOk result (λ xs. AreAt (fraction_of small) values.now xs.items) }
    ensures room { (w : Width) → HasRoom w → HaveParts w values.now → (o : IsOverFactor w (w.d * 2) small) → HaveRoom (λ xs. xs.items) w result }
{
    let mut numbers = Vec::new(alloc);
    for value in values {
        match value_at(value, small) {
            Ok(number) => numbers.push(number)?,
            Err(wide) => return Err(Halt::Wide(wide)),
        }
    }
    Ok(numbers)
}

// A positive number below a bound: half of it, or 1.
fn positive_below(bound: Option<Frac>) -> Result<Frac, Wide>
    requires { IsPositiveBound bound }
    ensures positive { IfOk result (λ s. IsPositive (fraction_of s)) }
    ensures under { IfOk result (λ s. IsUnder bound (fraction_of s)) }
    ensures room { (w : Width) → HasRoom w → 0 < w.d → IfSome bound (λ f. IsOverFactor w w.d f) → IsOkAnd result (λ s. IsOverFactor w (w.d * 2) s) }
{
    match bound {
        Some(bound) => half(bound),
        None => Ok(Frac::one()),
    }
}

// Half of a positive number.
fn half(number: Frac) -> Result<Frac, Wide>
    requires { IsPositive (fraction_of number) }
    ensures positive { IfOk result (λ s. IsPositive (fraction_of s)) }
    ensures under { IfOk result (λ s. IsBelow (fraction_of s) (fraction_of number)) }
    ensures room { (w : Width) → HasRoom w → IsOverFactor w w.d number → IsOkAnd result (λ s. IsOverFactor w (w.d * 2) s) }
{
    number.div(two())
}

fn two() -> Frac
    ensures { IsOver result (pos 2) 1 }
{
    ratio(2, 1)
}

// A bound for the small number, by all values.
fn bound(ranges: &[Interval<Frac>], values: &[Delta<Frac>]) -> Result<Option<Frac>, Wide>
    requires { length values.now ≡ length ranges.now }
    ensures bounds { IfOk result (λ bound. Bounds bound (AreSmall ranges.now values.now)) }
    ensures room { (w : Width) → HasRoom w → AreWithin w ranges.now values.now → IsBoundOver w result }
{
    let mut bound = None;
    for (number, value) in values.iter().enumerate() {
        let own = bound_at(&ranges[number], value)?;
        bound = lesser_bound(bound, own);
    }
    Ok(bound)
}

// A bound by one value.
fn bound_at(range: &Interval<Frac>, value: &Delta<Frac>) -> Result<Option<Frac>, Wide>
    ensures bounds { IfOk result (λ bound. Bounds bound (IsSmallAt range.now (pair value.now))) }
    ensures room { (w : Width) → HasRoom w → IsWithinAt w range.now value.now → IsBoundOver w result }
{
    let low = quotient(
        value.real,
        range.low.value(),
        low_tiny(range.low),
        value.tiny,
    )?;
    let high = quotient(
        range.high.value(),
        value.real,
        value.tiny,
        high_tiny(range.high),
    )?;
    Ok(lesser_bound(low, high))
}

// Where the first number is greater than the second and the third than the fourth: the first gap over the second.
fn quotient(greater: Frac, lesser: Frac, higher: Frac, lower: Frac) -> Result<Option<Frac>, Wide>
    ensures bounds { IfOk result (λ bound. Bounds bound (KeepsGap (fraction_of greater) (fraction_of lesser) (fraction_of higher) (fraction_of lower))) }
    ensures room { (w : Width) → HasRoom w → IsWithin w.d w.r greater → IsWithin w.d w.r lesser → AreTiny w higher lower → IsBoundOver w result }
{
    if !exceeds(greater, lesser) {
        return Ok(None);
    }
    if !exceeds(higher, lower) {
        return Ok(None);
    }
    let gap = greater.sub(lesser)?;
    let span = higher.sub(lower)?;
    let bound = gap.div(span)?;
    Ok(Some(bound))
}

fn exceeds(one: Frac, other: Frac) -> bool
    ensures { IsTrue result ↔ IsBelow (fraction_of other) (fraction_of one) }
{
    match one.compare(other) {
        Ordering::Greater => true,
        _ => false,
    }
}

// The lesser of two bounds.
fn lesser_bound(one: Option<Frac>, other: Option<Frac>) -> Option<Frac>
    ensures positive { IsPositiveBound one → IsPositiveBound other → IsPositiveBound result }
    ensures under { (s : Fraction) → IsUnder result s → IsUnder one s × IsUnder other s }
    ensures over { (w : Width) → IfSome one (λ f. IsOverFactor w w.d f) → IfSome other (λ f. IsOverFactor w w.d f) → IfSome result (λ f. IsOverFactor w w.d f) }
{
    let Some(first) = one else {
        return other;
    };
    let Some(second) = other else {
        return one;
    };
    if exceeds(first, second) { other } else { one }
}

// The tiny part of a low end.
pub fn low_tiny(end: End<Frac>) -> Frac
    ensures same { SameNumber (fraction_of result) (if is_open end then whole (pos 1) else whole (pos 0)) }
    ensures tiny { IsWithin 1 1 result }
{
    if end.is_open() {
        Frac::one()
    } else {
        Frac::zero()
    }
}

// The tiny part of a high end.
pub fn high_tiny(end: End<Frac>) -> Frac
    ensures same { SameNumber (fraction_of result) (if is_open end then whole (negsuc 0) else whole (pos 0)) }
    ensures tiny { IsWithin 1 1 result }
{
    if end.is_open() {
        Frac::one().neg()
    } else {
        Frac::zero()
    }
}

// The number that a value is.
fn value_at(value: &Delta<Frac>, small: Frac) -> Result<Frac, Wide>
    ensures is { IfOk result (λ x. IsAt (fraction_of small) value.now x) }
    ensures room { (w : Width) → HasRoom w → HasParts w value.now → (o : IsOverFactor w (w.d * 2) small) → IsOkAnd result (λ x. IsWholeOver (w.d * 2 * o.factor) x) }
{
    let product = value.tiny.mul(small)?;
    value.real.add(product)
}
