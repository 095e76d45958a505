ghost use Rattle.std.specs.Prelude.{◌≡◌, ◌≢◌, ◌⊎◌, pos, ◌<ℤ◌, ◌↔◌, IsTrue, IfOk, OnOk, IfErr};
ghost use Rattle.xc_model.specs.Fraction.{Fraction, SameNumber, neg_of, sum_of, product_of};
ghost use Rattle.xc_model.specs.Parts.{Parts, IsLess, SameParts, neg_parts, sum_parts};
ghost use Rattle.xc_frac.specs.Passes.{FirstPasses};
ghost use Rattle.xc_frac.specs.declared.wide.Op.{Op};
ghost use Rattle.xc_frac.specs.declared.wide.Wide.{Wide};
ghost use Rattle.xc_interval.specs.Arithmetic.{IsSumEnd, IsMadeEnd, IsSumInterval, IsSumOfPairs, IsSumOfNumbers, IsTurned, IsNegativeOfPair, IsNegativeOfNumber, IsScaled, IsMultiple};
ghost use Rattle.xc_interval.specs.Ends.{value_of, end_at};
ghost use Rattle.xc_interval.specs.Intervals.{pairs_of, reals_of, AreReal, HasPair, HasNoPair, HasNumber, HasNoNumber, TellsNone, IsPast, IsBefore};
ghost use Rattle.xc_interval.specs.Tightest.{IsTighterLow, IsTighterHigh};

use crate::ends::End;
use std::cmp::Ordering;
use xc_frac::{Exact, Scalar, Wide};

/// All values between two ends.
#[derive(Clone, Copy, Debug, PartialEq, Eq)]
pub struct Interval<E: Exact> {
    pub low: End<E>,
    pub high: End<E>,
}

impl<E: Exact> Interval<E> {
    /// Whether nothing lies in it: the low end passes the high one, or equals it while one of them
    /// is open.
    pub fn is_empty(&self) -> bool
        ensures ends { IsTrue result ↔ HasNoPair (pairs_of E.parts self.now) }
        ensures pairs { TellsNone result (HasPair (pairs_of E.parts self.now)) }
        // and where values have no infinitely small part, it tells the same of numbers
        ensures numbers { AreReal E.parts → TellsNone result (HasNumber (reals_of E.parts self.now)) }
    {
        crosses(self.low, self.high)
    }

    /// Whether a value lies in it.
    pub fn contains(&self, value: E) -> bool
        ensures pairs { IsTrue result ↔ HasPair (pairs_of E.parts self.now) (E.parts value) }
        ensures numbers { AreReal E.parts →
            (IsTrue result ↔ HasNumber (reals_of E.parts self.now) (E.parts value).real) }
    {
        is_past(self.low, value) && is_before(self.high, value)
    }

    /// What lies in both.
    pub fn meet(&self, other: &Interval<E>) -> Interval<E>
        ensures pairs { (x : Parts) → HasPair (pairs_of E.parts result) x
            ↔ (HasPair (pairs_of E.parts self.now) x × HasPair (pairs_of E.parts other.now) x) }
        ensures numbers { AreReal E.parts → (x : Fraction) → HasNumber (reals_of E.parts result) x
            ↔ (HasNumber (reals_of E.parts self.now) x × HasNumber (reals_of E.parts other.now) x) }
        // each end is one of the two: its own, unless the other's is tighter
        ensures low { (result.low ≡ self.now.low) ⊎ (result.low ≡ other.now.low) }
        ensures high { (result.high ≡ self.now.high) ⊎ (result.high ≡ other.now.high) }
        ensures low_kept { ¬ IsTighterLow IsLess SameParts
            (end_at E.parts other.now.low) (end_at E.parts self.now.low) → result.low ≡ self.now.low }
        ensures low_taken { IsTighterLow IsLess SameParts
            (end_at E.parts other.now.low) (end_at E.parts self.now.low) → result.low ≡ other.now.low }
        ensures high_kept { ¬ IsTighterHigh IsLess SameParts
            (end_at E.parts other.now.high) (end_at E.parts self.now.high) → result.high ≡ self.now.high }
        ensures high_taken { IsTighterHigh IsLess SameParts
            (end_at E.parts other.now.high) (end_at E.parts self.now.high) → result.high ≡ other.now.high }
    {
        Interval {
            low: higher(self.low, other.low),
            high: lower(self.high, other.high),
        }
    }

    /// The negatives of what lies in it.
    pub fn negated(&self) -> Interval<E>
        ensures ends { IsTurned SameParts neg_parts (pairs_of E.parts self.now) (pairs_of E.parts result) }
        ensures pairs { (x : Parts) → HasPair (pairs_of E.parts result) x
            ↔ IsNegativeOfPair (pairs_of E.parts self.now) x }
        ensures numbers { AreReal E.parts → (x : Fraction) → HasNumber (reals_of E.parts result) x
            ↔ IsNegativeOfNumber (reals_of E.parts self.now) x }
        ensures some { ¬ HasNoPair (pairs_of E.parts self.now) → ¬ HasNoPair (pairs_of E.parts result) }
    {
        Interval {
            low: turned(self.high),
            high: turned(self.low),
        }
    }

    /// The sums of a value of the one and a value of the other, neither of which is empty; or the
    /// addition of two ends that passes, that of the low ends first.
    pub fn plus(&self, other: &Interval<E>) -> Result<Interval<E>, Wide>
        requires own { ¬ HasNoPair (pairs_of E.parts self.now) }
        requires others { ¬ HasNoPair (pairs_of E.parts other.now) }
        ensures ends { IfOk result (λ r. IsSumInterval SameParts sum_parts
            (pairs_of E.parts self.now) (pairs_of E.parts other.now) (pairs_of E.parts r)) }
        ensures pairs { IfOk result (λ r. (x : Parts) → HasPair (pairs_of E.parts r) x
            ↔ IsSumOfPairs (pairs_of E.parts self.now) (pairs_of E.parts other.now) x) }
        ensures numbers { AreReal E.parts → IfOk result (λ r. (x : Fraction) → HasNumber (reals_of E.parts r) x
            ↔ IsSumOfNumbers (reals_of E.parts self.now) (reals_of E.parts other.now) x) }
        ensures some { IfOk result (λ r. ¬ HasNoPair (pairs_of E.parts r)) }
        ensures fits { OnOk result ((w : Wide) → ¬ FirstPasses
            (E.passes Op.Add (value_of self.now.low) (value_of other.now.low))
            (E.passes Op.Add (value_of self.now.high) (value_of other.now.high)) w) }
        ensures passes { IfErr result (FirstPasses
            (E.passes Op.Add (value_of self.now.low) (value_of other.now.low))
            (E.passes Op.Add (value_of self.now.high) (value_of other.now.high))) }
    {
        let low = added(self.low, other.low)?;
        let high = added(self.high, other.high)?;
        Ok(Interval { low, high })
    }
}

impl<K: Scalar> Interval<K> {
    /// What lies in it, times a number other than 0; or the multiplication of an end that passes,
    /// that of the low end first.
    pub fn scaled(&self, by: K) -> Result<Interval<K>, Wide>
        requires { (K.parts by).real.num ≢ pos 0 }
        ensures ends { IfOk result (λ r. IsScaled (K.parts by).real
            (reals_of K.parts self.now) (reals_of K.parts r)) }
        ensures numbers { IfOk result (λ r. (x : Fraction) → HasNumber (reals_of K.parts r) x
            ↔ IsMultiple (K.parts by).real (reals_of K.parts self.now) x) }
        ensures some { IfOk result (λ r.
            ¬ HasNoPair (pairs_of K.parts self.now) → ¬ HasNoPair (pairs_of K.parts r)) }
        ensures fits { OnOk result ((w : Wide) → ¬ FirstPasses
            (K.passes Op.Mul (value_of self.now.low) by)
            (K.passes Op.Mul (value_of self.now.high) by) w) }
        ensures passes { IfErr result (FirstPasses
            (K.passes Op.Mul (value_of self.now.low) by)
            (K.passes Op.Mul (value_of self.now.high) by)) }
    {
        let low = multiplied(self.low, by)?;
        let high = multiplied(self.high, by)?;
        if is_negative(by) {
            Ok(Interval {
                low: high,
                high: low,
            })
        } else {
            Ok(Interval { low, high })
        }
    }
}

// Whether a low end passes a high one, or equals it while one of them is open.
fn crosses<E: Exact>(low: End<E>, high: End<E>) -> bool
    ensures { IsTrue result ↔ HasNoPair (pairs_of E.parts (record { low = low; high = high })) }
{
    match low.value().compare(high.value()) {
        Ordering::Less => false,
        Ordering::Equal => low.is_open() || high.is_open(),
        Ordering::Greater => true,
    }
}

// Whether a value is past a low end.
fn is_past<E: Exact>(low: End<E>, value: E) -> bool
    ensures { IsTrue result ↔ IsPast IsLess SameParts (end_at E.parts low) (E.parts value) }
{
    match low {
        End::Closed(end) => end.compare(value).is_le(),
        End::Open(end) => end.compare(value).is_lt(),
    }
}

// Whether a value is before a high end.
fn is_before<E: Exact>(high: End<E>, value: E) -> bool
    ensures { IsTrue result ↔ IsBefore IsLess SameParts (end_at E.parts high) (E.parts value) }
{
    match high {
        End::Closed(end) => value.compare(end).is_le(),
        End::Open(end) => value.compare(end).is_lt(),
    }
}

// The tighter of two low ends, the first where neither is tighter.
fn higher<E: Exact>(one: End<E>, other: End<E>) -> End<E>
    ensures kept { ¬ IsTighterLow IsLess SameParts (end_at E.parts other) (end_at E.parts one) → result ≡ one }
    ensures taken { IsTighterLow IsLess SameParts (end_at E.parts other) (end_at E.parts one) → result ≡ other }
    ensures one { (result ≡ one) ⊎ (result ≡ other) }
    ensures both { (x : Parts) → IsPast IsLess SameParts (end_at E.parts result) x
        ↔ (IsPast IsLess SameParts (end_at E.parts one) x × IsPast IsLess SameParts (end_at E.parts other) x) }
{
    if other.is_tighter_low(one) {
        other
    } else {
        one
    }
}

// The tighter of two high ends, the first where neither is tighter.
fn lower<E: Exact>(one: End<E>, other: End<E>) -> End<E>
    ensures kept { ¬ IsTighterHigh IsLess SameParts (end_at E.parts other) (end_at E.parts one) → result ≡ one }
    ensures taken { IsTighterHigh IsLess SameParts (end_at E.parts other) (end_at E.parts one) → result ≡ other }
    ensures one { (result ≡ one) ⊎ (result ≡ other) }
    ensures both { (x : Parts) → IsBefore IsLess SameParts (end_at E.parts result) x
        ↔ (IsBefore IsLess SameParts (end_at E.parts one) x × IsBefore IsLess SameParts (end_at E.parts other) x) }
{
    if other.is_tighter_high(one) {
        other
    } else {
        one
    }
}

// The end at the negative.
fn turned<E: Exact>(end: End<E>) -> End<E>
    ensures { IsMadeEnd SameParts neg_parts (end_at E.parts end) (end_at E.parts result) }
{
    End::at(end.value().neg(), end.is_open())
}

// The end at the sum, open where one of the two is.
fn added<E: Exact>(one: End<E>, other: End<E>) -> Result<End<E>, Wide>
    ensures exact { IfOk result (λ r.
        IsSumEnd SameParts sum_parts (end_at E.parts one) (end_at E.parts other) (end_at E.parts r)) }
    ensures fits { OnOk result ((w : Wide) → ¬ E.passes Op.Add (value_of one) (value_of other) w) }
    ensures passes { IfErr result (E.passes Op.Add (value_of one) (value_of other)) }
{
    let value = one.value().add(other.value())?;
    Ok(End::at(value, one.is_open() || other.is_open()))
}

// The end at the product, open where the end is.
fn multiplied<K: Scalar>(end: End<K>, by: K) -> Result<End<K>, Wide>
    ensures exact { IfOk result (λ r. IsMadeEnd SameNumber (λ y. product_of y (K.parts by).real)
        (end_at (λ e. (K.parts e).real) end) (end_at (λ e. (K.parts e).real) r)) }
    ensures fits { OnOk result ((w : Wide) → ¬ K.passes Op.Mul (value_of end) by w) }
    ensures passes { IfErr result (K.passes Op.Mul (value_of end) by) }
{
    let value = end.value().mul(by)?;
    Ok(End::at(value, end.is_open()))
}

// Whether a number is below 0.
fn is_negative<K: Scalar>(number: K) -> bool
    ensures { IsTrue result ↔ ((K.parts number).real.num <ℤ pos 0) }
{
    number.compare(K::zero()).is_lt()
}
