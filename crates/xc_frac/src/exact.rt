ghost use Rattle.std.specs.Prelude.{◌≢◌, ℕ, ℤ, pos, ◌<◌, ◌^◌, IsOk, IfOk, IfErr, OnOk};
ghost use Rattle.xc_model.specs.Fraction.{whole, SameNumber, IsNumberOver, IsProductOver, IsQuotientOver, product_of, IsQuotient};
ghost use Rattle.xc_model.specs.Width.{IsNarrow};
ghost use Rattle.xc_frac.specs.declared.wide.Op.{Op};
ghost use Rattle.xc_frac.specs.declared.wide.Wide.{Wide};
ghost use Rattle.xc_model.specs.Parts.{Parts, SameParts, OrdersParts, zero_parts, neg_parts, sum_parts, difference_parts, WholeParts, ArePartsOver, OrdersWhole, PartsFit, whole_neg, whole_sum, whole_difference};
ghost use Rattle.xc_frac.specs.Passes.{SumsHaveRoom, DifferencesHaveRoom, ProductsHaveRoom, QuotientsHaveRoom};

use crate::wide::Wide;
use std::cmp::Ordering;

/// Numbers with exact arithmetic, as far as results fit. A value stands for a real part and an
/// infinitely small part, and values are ordered by the real part first. Sums and the order have
/// the laws of an ordered group wherever results fit: `laws::pairs_are_a_group` and
/// `laws::pairs_are_ordered` say them of the parts.
pub trait Exact: Copy {
    // the two parts that a value stands for
    ghost parts: { Self → Parts };

    // an operation on two values passes, and answers that `Wide`
    ghost passes: { Op → Self → Self → Wide → Type 0 };

    /// The number 0.
    fn zero() -> Self
        ensures { SameParts (parts result) zero_parts };

    /// The sum, or the addition that passes.
    fn add(self, other: Self) -> Result<Self, Wide>
        ensures exact { IfOk result (λ r. SameParts (parts r) (sum_parts (parts self) (parts other))) }
        ensures fits { OnOk result ((w : Wide) → ¬ (passes Op.Add self other w)) }
        ensures passes { IfErr result (passes Op.Add self other) }
        // over a common denominator the whole numbers are added
        ensures over { (a b : WholeParts) (d : ℕ) → ArePartsOver (parts self) a d
            → ArePartsOver (parts other) b d → IfOk result (λ r. ArePartsOver (parts r) (whole_sum a b) d) }
        // and where they fit over it, with their sums, the sum does not pass
        ensures room { (a b : WholeParts) (d : ℕ) → ArePartsOver (parts self) a d
            → ArePartsOver (parts other) b d → PartsFit a b d → IsOk result };

    /// The difference, or the subtraction that passes.
    fn sub(self, other: Self) -> Result<Self, Wide>
        ensures exact { IfOk result (λ r.
            SameParts (parts r) (difference_parts (parts self) (parts other))) }
        ensures fits { OnOk result ((w : Wide) → ¬ (passes Op.Sub self other w)) }
        ensures passes { IfErr result (passes Op.Sub self other) }
        // over a common denominator the whole numbers are subtracted
        ensures over { (a b : WholeParts) (d : ℕ) → ArePartsOver (parts self) a d
            → ArePartsOver (parts other) b d → IfOk result (λ r. ArePartsOver (parts r) (whole_difference a b) d) }
        // and where they fit over it, with their differences, the difference does not pass
        ensures room { (a b : WholeParts) (d : ℕ) → ArePartsOver (parts self) a d
            → ArePartsOver (parts other) b d → PartsFit a (whole_neg b) d → IsOk result };

    /// The negative.
    fn neg(self) -> Self
        ensures exact { SameParts (parts result) (neg_parts (parts self)) }
        ensures over { (a : WholeParts) (d : ℕ) → ArePartsOver (parts self) a d
            → ArePartsOver (parts result) (whole_neg a) d };

    /// How the two compare.
    fn compare(self, other: Self) -> Ordering
        ensures exact { OrdersParts result (parts self) (parts other) }
        // over a common denominator, as the whole numbers do
        ensures over { (a b : WholeParts) (d : ℕ) → ArePartsOver (parts self) a d
            → ArePartsOver (parts other) b d → OrdersWhole result a b };

    // what `room` says of sums and of differences, wherever they are taken
    ghost sums_have_room: { SumsHaveRoom parts passes };

    ghost differences_have_room: { DifferencesHaveRoom parts passes };
}

/// Exact numbers without an infinitely small part, which are multiplied and divided too. They have
/// the laws of an ordered field wherever results fit: `laws::numbers_are_a_group`,
/// `laws::numbers_are_a_field` and `laws::numbers_are_ordered` say them of the real parts.
pub trait Scalar: Exact {
    /// The number 1.
    fn one() -> Self
        ensures { SameNumber (Self.parts result).real (whole (pos 1)) };

    /// The product, or the multiplication that passes.
    fn mul(self, other: Self) -> Result<Self, Wide>
        ensures exact { IfOk result (λ r. SameNumber (Self.parts r).real
            (product_of (Self.parts self).real (Self.parts other).real)) }
        ensures fits { OnOk result ((w : Wide) → ¬ (Self.passes Op.Mul self other w)) }
        ensures passes { IfErr result (Self.passes Op.Mul self other) }
        // where the numbers over two denominators give p / c in any terms, it is that
        ensures over { (n m p : ℤ) (d e c : ℕ) → IsNumberOver (Self.parts self).real n d
            → IsNumberOver (Self.parts other).real m e → IsProductOver n d m e p c
            → IfOk result (λ r. IsNumberOver (Self.parts r).real p c) }
        // and where both fit, the product does not pass
        ensures room { (n m p : ℤ) (d e c : ℕ) → IsNumberOver (Self.parts self).real n d
            → IsNumberOver (Self.parts other).real m e → IsProductOver n d m e p c
            → c < 2 ^ 127 → IsNarrow p → IsOk result };

    /// The quotient by a number other than 0, or the division that passes.
    fn div(self, other: Self) -> Result<Self, Wide>
        requires { (Self.parts other).real.num ≢ pos 0 }
        ensures exact { IfOk result (λ r. IsQuotient (Self.parts r).real
            (Self.parts self).real (Self.parts other).real) }
        ensures fits { OnOk result ((w : Wide) → ¬ (Self.passes Op.Div self other w)) }
        ensures passes { IfErr result (Self.passes Op.Div self other) }
        // where the numbers over two denominators give p / c in any terms, it is that
        ensures over { (n m p : ℤ) (d e c : ℕ) → IsNumberOver (Self.parts self).real n d
            → IsNumberOver (Self.parts other).real m e → IsQuotientOver n d m e p c
            → IfOk result (λ r. IsNumberOver (Self.parts r).real p c) }
        // and where both fit, the quotient does not pass
        ensures room { (n m p : ℤ) (d e c : ℕ) → IsNumberOver (Self.parts self).real n d
            → IsNumberOver (Self.parts other).real m e → IsQuotientOver n d m e p c
            → c < 2 ^ 127 → IsNarrow p → IsOk result };

    // the tiny part is 0
    ghost no_tiny: { (x : Self) → SameNumber (Self.parts x).tiny (whole (pos 0)) };

    // what `room` says of products and of quotients, wherever they are taken
    ghost products_have_room: { ProductsHaveRoom Self.parts Self.passes };

    ghost quotients_have_room: { QuotientsHaveRoom Self.parts Self.passes };
}
