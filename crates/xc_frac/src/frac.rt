ghost use Rattle.std.specs.Prelude.{◌≡◌, ◌≢◌, ℕ, ℤ, pos, neg_ℤ, ◌<◌, ◌^◌, ◌*ℤ◌, ◌+ℤ◌, ◌-ℤ◌, ◌↔◌, IsTrue, IsNone, IsOk, IfSome, IfNone, OnSome, IfOk, IfErr, OnOk, OnErr};
ghost use Rattle.xc_model.specs.Fraction.{whole, SameNumber, neg_of, sum_of, difference_of, product_of, IsQuotient, IsProductOver, IsQuotientOver};
ghost use Rattle.xc_model.specs.Order.{Orders, OrdersInt, SameSign};
ghost use Rattle.xc_model.specs.Ratio.{IsLowest, fraction_of, IsOver};
ghost use Rattle.xc_model.specs.Width.{IsNarrow, SumPasses, DifferencePasses, ProductPasses, QuotientPasses};

use crate::wide::{Op, Wide};
use crate::{integers, order};
use std::cmp::Ordering;
use std::marker::Model;

/// An exact fraction in lowest terms: a numerator and a positive denominator without a common
/// factor, each at most 2^127 - 1 in magnitude.
#[derive(Clone, Copy, Debug, PartialEq, Eq)]
pub struct Frac {
    num: i128,
    den: i128,
    ghost lowest: { IsLowest num den },
}

impl Model for Frac {
    ghost use Rattle.xc_model.specs.Ratio.{Ratio};

    ghost Value = { Ratio };

    ghost view = { λ f. record { num = f.num; den = f.den; lowest = f.lowest } };

    ghost inverse = { λ v. record { num = v.num; den = v.den; lowest = v.lowest } };
}

impl Frac {
    /// num / den in lowest terms, or `None` where den is 0. Neither is the least i128.
    pub fn of(num: i128, den: i128) -> Option<Frac>
        requires num_narrow { IsNarrow num }
        requires den_narrow { IsNarrow den }
        ensures none { IsNone result ↔ (den ≡ pos 0) }
        ensures same { IfSome result (λ f. f.num *ℤ den ≡ num *ℤ f.den) }
        ensures over { IfSome result (λ f. (d : ℕ) → den ≡ pos d → IsOver f num d) }
    {
        match den {
            0 => None,
            _ => Some(Frac::reduced(num, den)),
        }
    }

    /// The numerator, which has the sign of the fraction.
    pub fn num(self) -> i128
        ensures num { result ≡ self.num }
        ensures sign { (n : ℤ) (d : ℕ) → IsOver self n d → SameSign result n }
    {
        self.num
    }

    /// The denominator, which is positive.
    pub fn den(self) -> i128
        ensures { result ≡ self.den }
    {
        self.den
    }

    /// The negative.
    pub fn neg(self) -> Frac
        ensures exact { SameNumber (fraction_of result) (neg_of (fraction_of self)) }
        ensures over { (n : ℤ) (d : ℕ) → IsOver self n d → IsOver result (neg_ℤ n) d }
    {
        Frac::lowest(-self.num, self.den)
    }

    /// How the two compare, as numbers. Nothing passes.
    pub fn compare(self, other: Frac) -> Ordering
        ensures exact { Orders result (fraction_of self) (fraction_of other) }
        // over a common denominator, as the numerators do
        ensures over { (n m : ℤ) (d : ℕ) → IsOver self n d → IsOver other m d → OrdersInt result n m }
    {
        order::order(self.num, self.den, other.num, other.den)
    }

    /// The sum, or `Wide` where the least common denominator, a numerator over it or the sum of the
    /// two numerators passes 2^127 - 1 in magnitude.
    pub fn add(self, other: Frac) -> Result<Frac, Wide>
        ensures exact { IfOk result (λ r.
            SameNumber (fraction_of r) (sum_of (fraction_of self) (fraction_of other))) }
        ensures fits { OnOk result (¬ (SumPasses (fraction_of self) (fraction_of other))) }
        ensures passes { OnErr result (SumPasses (fraction_of self) (fraction_of other)) }
        ensures operands { IfErr result (λ w. w ≡ record { op = Op.Add; left = self; right = other }) }
        // over a common denominator the numerators are added
        ensures over { (n m : ℤ) (d : ℕ) → IsOver self n d → IsOver other m d
            → IfOk result (λ r. IsOver r (n +ℤ m) d) }
        // and where these three fit over it, the sum does not pass
        ensures room { (n m : ℤ) (d : ℕ) → IsOver self n d → IsOver other m d
            → d < 2 ^ 127 → IsNarrow n → IsNarrow m → IsNarrow (n +ℤ m) → IsOk result }
    {
        self.sum(other).ok_or(Wide::of(Op::Add, self, other))
    }

    /// The difference, or `Wide` where the sum with the negative passes.
    pub fn sub(self, other: Frac) -> Result<Frac, Wide>
        ensures exact { IfOk result (λ r.
            SameNumber (fraction_of r) (difference_of (fraction_of self) (fraction_of other))) }
        ensures fits { OnOk result (¬ (DifferencePasses (fraction_of self) (fraction_of other))) }
        ensures passes { OnErr result (DifferencePasses (fraction_of self) (fraction_of other)) }
        ensures operands { IfErr result (λ w. w ≡ record { op = Op.Sub; left = self; right = other }) }
        // over a common denominator the numerators are subtracted
        ensures over { (n m : ℤ) (d : ℕ) → IsOver self n d → IsOver other m d
            → IfOk result (λ r. IsOver r (n -ℤ m) d) }
        // and where these three fit over it, the difference does not pass
        ensures room { (n m : ℤ) (d : ℕ) → IsOver self n d → IsOver other m d
            → d < 2 ^ 127 → IsNarrow n → IsNarrow m → IsNarrow (n -ℤ m) → IsOk result }
    {
        self.sum(other.neg()).ok_or(Wide::of(Op::Sub, self, other))
    }

    /// The product, or `Wide` where its numerator or denominator in lowest terms passes 2^127 - 1
    /// in magnitude.
    pub fn mul(self, other: Frac) -> Result<Frac, Wide>
        ensures exact { IfOk result (λ r.
            SameNumber (fraction_of r) (product_of (fraction_of self) (fraction_of other))) }
        ensures fits { OnOk result (¬ (ProductPasses (fraction_of self) (fraction_of other))) }
        ensures passes { OnErr result (ProductPasses (fraction_of self) (fraction_of other)) }
        ensures operands { IfErr result (λ w. w ≡ record { op = Op.Mul; left = self; right = other }) }
        // where the numbers over two denominators give p / c in any terms, it is that
        ensures over { (n m p : ℤ) (d e c : ℕ) → IsOver self n d → IsOver other m e
            → IsProductOver n d m e p c → IfOk result (λ r. IsOver r p c) }
        // and where both fit, the product does not pass
        ensures room { (n m p : ℤ) (d e c : ℕ) → IsOver self n d → IsOver other m e
            → IsProductOver n d m e p c → c < 2 ^ 127 → IsNarrow p → IsOk result }
    {
        self.product(other).ok_or(Wide::of(Op::Mul, self, other))
    }

    /// The quotient by a fraction other than 0, or `Wide` where its numerator or denominator in
    /// lowest terms passes 2^127 - 1 in magnitude.
    pub fn div(self, other: Frac) -> Result<Frac, Wide>
        requires { other.num ≢ pos 0 }
        ensures exact { IfOk result (λ r. IsQuotient (fraction_of r) (fraction_of self) (fraction_of other)) }
        ensures fits { OnOk result (¬ (QuotientPasses (fraction_of self) (fraction_of other))) }
        ensures passes { OnErr result (QuotientPasses (fraction_of self) (fraction_of other)) }
        ensures operands { IfErr result (λ w. w ≡ record { op = Op.Div; left = self; right = other }) }
        // where the numbers over two denominators give p / c in any terms, it is that
        ensures over { (n m p : ℤ) (d e c : ℕ) → IsOver self n d → IsOver other m e
            → IsQuotientOver n d m e p c → IfOk result (λ r. IsOver r p c) }
        // and where both fit, the quotient does not pass
        ensures room { (n m p : ℤ) (d e c : ℕ) → IsOver self n d → IsOver other m e
            → IsQuotientOver n d m e p c → c < 2 ^ 127 → IsNarrow p → IsOk result }
    {
        self.product(other.inverse())
            .ok_or(Wide::of(Op::Div, self, other))
    }

    // num over den, which is lowest already.
    fn lowest(num: i128, den: i128) -> Frac
        requires { IsLowest num den }
        ensures num { result.num ≡ num }
        ensures den { result.den ≡ den }
    {
        Frac { num, den }
    }

    // A whole number.
    pub(crate) fn whole(n: i128) -> Frac
        requires { IsNarrow n }
        ensures { SameNumber (fraction_of result) (whole n) }
    {
        Frac::reduced(n, 1)
    }

    // num over den in lowest terms.
    fn reduced(num: i128, den: i128) -> Frac
        requires num_narrow { IsNarrow num }
        requires den_narrow { IsNarrow den }
        requires some { den ≢ pos 0 }
        ensures { result.num *ℤ den ≡ num *ℤ result.den }
    {
        let (num, den) = integers::cleared(num, den);
        Frac { num, den }
    }

    // 1 over a fraction other than 0.
    fn inverse(self) -> Frac
        requires { self.num ≢ pos 0 }
        ensures { result.num *ℤ self.num ≡ result.den *ℤ self.den }
    {
        if self.num < 0 {
            Frac::lowest(-self.den, -self.num)
        } else {
            Frac::lowest(self.den, self.num)
        }
    }

    // Whether it is a whole number.
    fn is_whole(self) -> bool
        ensures { IsTrue result ↔ (self.den ≡ pos 1) }
    {
        self.den == 1
    }

    // Whether it is 0.
    fn is_zero(self) -> bool
        ensures { IsTrue result ↔ (self.num ≡ pos 0) }
    {
        self.num == 0
    }

    // The sum, where nothing passes over the least common denominator.
    fn sum(self, other: Frac) -> Option<Frac>
        ensures exact { IfSome result (λ r.
            SameNumber (fraction_of r) (sum_of (fraction_of self) (fraction_of other))) }
        ensures fits { OnSome result (¬ (SumPasses (fraction_of self) (fraction_of other))) }
        ensures passes { IfNone result (SumPasses (fraction_of self) (fraction_of other)) }
    {
        if self.is_whole() {
            if other.is_whole() {
                return self.whole_sum(other);
            }
        }
        if self.is_zero() {
            return Some(other);
        }
        if other.is_zero() {
            return Some(self);
        }
        self.unlike_sum(other)
    }

    // The sum of two whole numbers, where it fits.
    fn whole_sum(self, other: Frac) -> Option<Frac>
        requires own { self.den ≡ pos 1 }
        requires others { other.den ≡ pos 1 }
        ensures exact { IfSome result (λ r.
            SameNumber (fraction_of r) (sum_of (fraction_of self) (fraction_of other))) }
        ensures fits { OnSome result (¬ (SumPasses (fraction_of self) (fraction_of other))) }
        ensures passes { IfNone result (SumPasses (fraction_of self) (fraction_of other)) }
    {
        let Some(num) = integers::sum(self.num, other.num) else {
            return None;
        };
        Some(Frac::lowest(num, 1))
    }

    // The sum by way of the least common denominator.
    fn unlike_sum(self, other: Frac) -> Option<Frac>
        ensures exact { IfSome result (λ r.
            SameNumber (fraction_of r) (sum_of (fraction_of self) (fraction_of other))) }
        ensures fits { OnSome result (¬ (SumPasses (fraction_of self) (fraction_of other))) }
        ensures passes { IfNone result (SumPasses (fraction_of self) (fraction_of other)) }
    {
        let (own, others) = integers::cofactors(self.den, other.den);
        let Some(den) = integers::product(self.den, others) else {
            return None;
        };
        let Some(left) = integers::product(self.num, others) else {
            return None;
        };
        let Some(right) = integers::product(other.num, own) else {
            return None;
        };
        let Some(num) = integers::sum(left, right) else {
            return None;
        };
        Some(Frac::reduced(num, den))
    }

    // The product, where it fits. Each numerator and the other denominator are cleared of their
    // common factor first, so what is left is lowest.
    fn product(self, other: Frac) -> Option<Frac>
        ensures exact { IfSome result (λ r.
            SameNumber (fraction_of r) (product_of (fraction_of self) (fraction_of other))) }
        ensures fits { OnSome result (¬ (ProductPasses (fraction_of self) (fraction_of other))) }
        ensures passes { IfNone result (ProductPasses (fraction_of self) (fraction_of other)) }
    {
        let (own_num, other_den) = integers::cleared(self.num, other.den);
        let (other_num, own_den) = integers::cleared(other.num, self.den);
        let Some(num) = integers::product(own_num, other_num) else {
            return None;
        };
        let Some(den) = integers::product(own_den, other_den) else {
            return None;
        };
        Some(Frac::lowest(num, den))
    }
}

/// num / den, for numbers that are known to fit: neither exceeds 2^127 - 1 in magnitude, and the
/// denominator is not 0.
pub fn ratio(num: i128, den: u128) -> Frac
    requires num { IsNarrow num }
    requires den { den < 2 ^ 127 }
    requires positive { 0 < den }
    ensures { IsOver result num den }
{
    Frac::of(num, den as i128).unwrap()
}
