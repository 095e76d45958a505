//! What follows from the definitions for all numbers. The functions do nothing: code calls one where
//! its proof needs the clauses.
ghost use Rattle.std.specs.Prelude.{◌≡◌, pos};
ghost use Rattle.xc_model.specs.Fraction.{Fraction, SameNumber, IsBelow, whole, neg_of, sum_of, product_of};
ghost use Rattle.xc_model.specs.Order.{Orders};
ghost use Rattle.xc_model.specs.Laws.{IsEquivalence, Respects, BothRespected, IsAssociative, IsCommutative, IsNeutral, GivesInverses, DistributesOver, AlikeMultiples, DistributesOverThings, DistributesOverFactors, MultipliesFactors, HasOneFactor, IsTotal, IsSingle, IsAntisymmetric, IsTransitive, ComparesAlike, Keeps, Reverses, SignsTell, RealsCompare, Divides, DividesOnce, CrossProductsTell, HasOneLowest};
ghost use Rattle.xc_model.specs.Parts.{Parts, SameParts, IsLess, OrdersParts, zero_parts, neg_parts, sum_parts, scaled_parts};
ghost use Rattle.xc_frac.specs.Passes.{SumsHaveRoom, DifferencesHaveRoom, ProductsHaveRoom, QuotientsHaveRoom};

use crate::exact::{Exact, Scalar};

/// Fractions in lowest terms are the same number exactly where they are equal.
pub fn lowest_terms()
    ensures cross { CrossProductsTell }
    ensures unique { HasOneLowest }
{}

/// Sums of numbers have the laws of a group.
pub fn numbers_are_a_group()
    ensures same { IsEquivalence SameNumber }
    ensures sums { BothRespected SameNumber sum_of }
    ensures associative { IsAssociative SameNumber sum_of }
    ensures commutative { IsCommutative SameNumber sum_of }
    ensures zero { IsNeutral SameNumber sum_of (whole (pos 0)) }
    ensures negatives { Respects SameNumber neg_of }
    ensures inverse { GivesInverses SameNumber sum_of neg_of (whole (pos 0)) }
{}

/// Products of numbers, beside their sums, have the laws of a field.
pub fn numbers_are_a_field()
    ensures products { BothRespected SameNumber product_of }
    ensures associative { IsAssociative SameNumber product_of }
    ensures commutative { IsCommutative SameNumber product_of }
    ensures one { IsNeutral SameNumber product_of (whole (pos 1)) }
    ensures distributive { DistributesOver SameNumber product_of sum_of }
    ensures quotient { Divides }
    ensures one_quotient { DividesOnce }
{}

/// The order of numbers is total, and the arithmetic keeps it as in an ordered field.
pub fn numbers_are_ordered()
    ensures same { ComparesAlike Orders SameNumber }
    ensures total { IsTotal Orders }
    ensures single { IsSingle Orders }
    ensures antisymmetric { IsAntisymmetric Orders }
    ensures transitive { IsTransitive Orders }
    ensures sum { (z : Fraction) → Keeps Orders (λ x. sum_of x z) }
    ensures negative { Reverses Orders neg_of }
    ensures positive_factor { (z : Fraction) → IsBelow (whole (pos 0)) z
        → Keeps Orders (λ x. product_of x z) }
    ensures negative_factor { (z : Fraction) → IsBelow z (whole (pos 0))
        → Reverses Orders (λ x. product_of x z) }
    ensures sign { SignsTell }
{}

/// Sums of pairs have the laws of a group.
pub fn pairs_are_a_group()
    ensures same { IsEquivalence SameParts }
    ensures sums { BothRespected SameParts sum_parts }
    ensures associative { IsAssociative SameParts sum_parts }
    ensures commutative { IsCommutative SameParts sum_parts }
    ensures zero { IsNeutral SameParts sum_parts zero_parts }
    ensures negatives { Respects SameParts neg_parts }
    ensures inverse { GivesInverses SameParts sum_parts neg_parts zero_parts }
{}

/// Pairs are multiplied by numbers as the elements of a module are.
pub fn pairs_are_a_module()
    ensures alike { AlikeMultiples SameParts scaled_parts SameNumber }
    ensures pairs { DistributesOverThings SameParts scaled_parts sum_parts }
    ensures factors { DistributesOverFactors SameParts scaled_parts sum_of sum_parts }
    ensures products { MultipliesFactors SameParts scaled_parts product_of }
    ensures one { HasOneFactor SameParts scaled_parts (whole (pos 1)) }
{}

/// The order of pairs is total, by the real part first, and the arithmetic keeps it as in an ordered
/// group.
pub fn pairs_are_ordered()
    ensures real_first { (x y : Parts) → IsBelow x.real y.real → IsLess x y }
    ensures same { ComparesAlike OrdersParts SameParts }
    ensures total { IsTotal OrdersParts }
    ensures single { IsSingle OrdersParts }
    ensures antisymmetric { IsAntisymmetric OrdersParts }
    ensures transitive { IsTransitive OrdersParts }
    ensures sum { (z : Parts) → Keeps OrdersParts (λ x. sum_parts x z) }
    ensures negative { Reverses OrdersParts neg_parts }
    ensures positive_factor { (z : Fraction) → IsBelow (whole (pos 0)) z
        → Keeps OrdersParts (λ x. scaled_parts x z) }
    ensures negative_factor { (z : Fraction) → IsBelow z (whole (pos 0))
        → Reverses OrdersParts (λ x. scaled_parts x z) }
    ensures reals { RealsCompare }
{}

/// Where values are whole numbers over one denominator that fit with their sums, or differences,
/// no sum passes, and no difference.
pub fn sums_have_room<E: Exact>()
    ensures sums { SumsHaveRoom E.parts E.passes }
    ensures differences { DifferencesHaveRoom E.parts E.passes }
{}

/// Where a product, or a quotient, is a whole number over some denominator and both fit, it does not
/// pass.
pub fn products_have_room<K: Scalar>()
    ensures products { ProductsHaveRoom K.parts K.passes }
    ensures quotients { QuotientsHaveRoom K.parts K.passes }
{}
