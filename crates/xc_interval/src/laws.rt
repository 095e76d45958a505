//! What follows from the definitions for all intervals. The functions do nothing: code calls one
//! where its proof needs the clauses.
ghost use Rattle.xc_model.specs.Fraction.{SameNumber, IsBelow, sum_of};
ghost use Rattle.xc_model.specs.Parts.{IsLess, SameParts, sum_parts};
ghost use Rattle.xc_interval.specs.Intervals.{IsPast, IsBefore};
ghost use Rattle.xc_interval.specs.Laws.{EndsTell, HasSums, HasMultiples, HasRealsAlone, HasOneInterval, HasOneRangeOf, RangesHaveNumbers, IsTightness, HaveScales, ScalesGrow, SumsStay, ProductsStay};
ghost use Rattle.xc_interval.specs.Tightest.{IsTighterLow, IsTighterHigh};

use xc_frac::laws::lowest_terms;

/// Whether something lies in an interval is told by its ends.
pub fn ends_tell()
    ensures numbers { EndsTell IsBelow SameNumber }
    ensures pairs { EndsTell IsLess SameParts }
{}

/// A number is in the sum of two intervals that are not empty exactly where it is a sum of one
/// number of each, open ends included; and so for numbers with an infinitely small part.
pub fn sums()
    ensures numbers { HasSums IsBelow SameNumber sum_of }
    ensures pairs { HasSums IsLess SameParts sum_parts }
{}

/// A number is in a multiple of an interval exactly where it is that multiple of one of its numbers.
pub fn multiples()
    ensures { HasMultiples }
{}

/// An interval of numbers without an infinitely small part has the numbers that lie in it.
pub fn reals()
    ensures { HasRealsAlone }
{}

/// An interval in which something lies is told by its numbers: two that have the same ones are equal.
pub fn one_interval()
    ensures { HasOneInterval }
{
    lowest_terms();
}

/// Several intervals give one range.
pub fn one_range()
    ensures { HasOneRangeOf }
{
    lowest_terms();
}

/// A range that several intervals give, and that is not empty, has a number.
pub fn ranges_have_numbers()
    ensures { RangesHaveNumbers }
{}

/// How ends go by tightness.
pub fn tighter_ends()
    ensures low_numbers { IsTightness (IsTighterLow IsBelow SameNumber) (IsPast IsBelow SameNumber) }
    ensures high_numbers { IsTightness (IsTighterHigh IsBelow SameNumber) (IsBefore IsBelow SameNumber) }
    ensures low_pairs { IsTightness (IsTighterLow IsLess SameParts) (IsPast IsLess SameParts) }
    ensures high_pairs { IsTightness (IsTighterHigh IsLess SameParts) (IsBefore IsLess SameParts) }
{}

/// Ranges have common denominators, and so have several of them.
pub fn scales()
    ensures some { HaveScales }
    ensures grow { ScalesGrow }
{}

/// Sums and products may be cut at the end of 128 bits before they are added or multiplied.
pub fn saturated_sums()
    ensures sums { SumsStay }
    ensures products { ProductsStay }
{}
