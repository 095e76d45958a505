ghost use Rattle.std.specs.Prelude.{◌≢◌, ℕ, ℤ, pos, IsOk, IfOk, IfErr, OnOk};
ghost use Rattle.xc_model.specs.Fraction.{SameNumber, IsNumberOver, product_of, IsQuotient};
ghost use Rattle.xc_frac.specs.declared.wide.Op.{Op};
ghost use Rattle.xc_frac.specs.declared.wide.Wide.{Wide};
ghost use Rattle.xc_model.specs.Parts.{WholeParts, ArePartsOver, AreNarrowParts, ArePartsTimes, ArePartsBy, pair_of};
ghost use Rattle.xc_frac.specs.Passes.{FirstPasses};
ghost use Rattle.xc_frac.specs.Rooms.{pair_sums_fit, pair_differences_fit};

use crate::exact::{Exact, Scalar};
use crate::wide::Wide;
use std::cmp::Ordering;

/// A number and an infinitely small one: `real` plus `tiny` times a positive number that is less
/// than every other. An open end of an interval is such a number, just beside the closed one.
#[derive(Clone, Copy, Debug, PartialEq, Eq)]
pub struct Delta<K: Scalar> {
    pub real: K,
    pub tiny: K,
}

impl<K: Scalar> Exact for Delta<K> {
    ghost parts = { λ x. pair_of K.parts x.real x.tiny };

    ghost passes = { λ op x y. FirstPasses (K.passes op x.real y.real) (K.passes op x.tiny y.tiny) };

    ghost sums_have_room = { λ x y. pair_sums_fit K.parts K.passes K.no_tiny K.sums_have_room x.real y.real x.tiny y.tiny };

    ghost differences_have_room = { λ x y. pair_differences_fit K.parts K.passes K.no_tiny K.differences_have_room x.real y.real x.tiny y.tiny };

    fn zero() -> Self {
        Delta {
            real: K::zero(),
            tiny: K::zero(),
        }
    }

    fn add(self, other: Self) -> Result<Self, Wide> {
        let real = self.real.add(other.real)?;
        let tiny = self.tiny.add(other.tiny)?;
        Ok(Delta { real, tiny })
    }

    fn sub(self, other: Self) -> Result<Self, Wide> {
        let real = self.real.sub(other.real)?;
        let tiny = self.tiny.sub(other.tiny)?;
        Ok(Delta { real, tiny })
    }

    fn neg(self) -> Self {
        Delta {
            real: self.real.neg(),
            tiny: self.tiny.neg(),
        }
    }

    fn compare(self, other: Self) -> Ordering {
        match self.real.compare(other.real) {
            Ordering::Equal => self.tiny.compare(other.tiny),
            order => order,
        }
    }
}

impl<K: Scalar> Delta<K> {
    /// A number times both parts, the number first; or the multiplication that passes, the real
    /// part's first.
    pub fn scaled(self, by: K) -> Result<Self, Wide>
        ensures real { IfOk result (λ r. SameNumber (K.parts r.real).real
            (product_of (K.parts self.real).real (K.parts by).real)) }
        ensures tiny { IfOk result (λ r. SameNumber (K.parts r.tiny).real
            (product_of (K.parts self.tiny).real (K.parts by).real)) }
        ensures fits { OnOk result ((w : Wide) →
            ¬ (FirstPasses (K.passes Op.Mul by self.real) (K.passes Op.Mul by self.tiny) w)) }
        ensures passes { IfErr result
            (FirstPasses (K.passes Op.Mul by self.real) (K.passes Op.Mul by self.tiny)) }
        // where the whole numbers over two denominators give p / c in any terms, it is these
        ensures over { (a p : WholeParts) (m : ℤ) (d e c : ℕ) → ArePartsOver (pair_of K.parts self.real self.tiny) a d
            → IsNumberOver (K.parts by).real m e → ArePartsTimes m e a d p c
            → IfOk result (λ r. ArePartsOver (pair_of K.parts r.real r.tiny) p c) }
        // and where these fit, nothing passes
        ensures room { (a p : WholeParts) (m : ℤ) (d e c : ℕ) → ArePartsOver (pair_of K.parts self.real self.tiny) a d
            → IsNumberOver (K.parts by).real m e → ArePartsTimes m e a d p c
            → AreNarrowParts p c → IsOk result }
    {
        let real = by.mul(self.real)?;
        let tiny = by.mul(self.tiny)?;
        Ok(Delta { real, tiny })
    }

    /// Both parts over a number other than 0, or the division that passes, the real part's first.
    pub fn over(self, by: K) -> Result<Self, Wide>
        requires { (K.parts by).real.num ≢ pos 0 }
        ensures real { IfOk result (λ r. IsQuotient (K.parts r.real).real
            (K.parts self.real).real (K.parts by).real) }
        ensures tiny { IfOk result (λ r. IsQuotient (K.parts r.tiny).real
            (K.parts self.tiny).real (K.parts by).real) }
        ensures fits { OnOk result ((w : Wide) →
            ¬ (FirstPasses (K.passes Op.Div self.real by) (K.passes Op.Div self.tiny by) w)) }
        ensures passes { IfErr result
            (FirstPasses (K.passes Op.Div self.real by) (K.passes Op.Div self.tiny by)) }
        // where the whole numbers over two denominators give p / c in any terms, it is these
        ensures over { (a p : WholeParts) (m : ℤ) (d e c : ℕ) → ArePartsOver (pair_of K.parts self.real self.tiny) a d
            → IsNumberOver (K.parts by).real m e → ArePartsBy a d m e p c
            → IfOk result (λ r. ArePartsOver (pair_of K.parts r.real r.tiny) p c) }
        // and where these fit, nothing passes
        ensures room { (a p : WholeParts) (m : ℤ) (d e c : ℕ) → ArePartsOver (pair_of K.parts self.real self.tiny) a d
            → IsNumberOver (K.parts by).real m e → ArePartsBy a d m e p c
            → AreNarrowParts p c → IsOk result }
    {
        let real = self.real.div(by)?;
        let tiny = self.tiny.div(by)?;
        Ok(Delta { real, tiny })
    }
}
