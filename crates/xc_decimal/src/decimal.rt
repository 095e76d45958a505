ghost use Rattle.std.specs.Prelude.{◌≡◌, ◌^◌};
ghost use Rattle.xc_model.specs.Fraction.{SameNumber};
ghost use Rattle.xc_model.specs.Ratio.{fraction_of, IsOver};
ghost use Rattle.xc_decimal.specs.Shortest.{IsShortest, decimal_number};

use std::marker::Model;
use xc_frac::{Frac, power, ratio};

/// A decimal number, digits / 10^places, in its shortest form: its last place is not 0. The digits
/// are at most 2^126 in magnitude, the places at most 37.
#[derive(Clone, Copy, Debug, PartialEq, Eq)]
pub struct Decimal {
    digits: i128,
    places: u32,
    ghost shortest: { IsShortest digits places },
}

impl Model for Decimal {
    ghost use Rattle.xc_decimal.specs.Shortest.{Shortest};

    ghost Value = { Shortest };

    ghost view = { λ d. record { digits = d.digits; places = d.places; shortest = d.shortest } };

    ghost inverse = { λ v. record { digits = v.digits; places = v.places; shortest = v.shortest } };
}

/// Why a text is not read as a decimal number.
#[derive(Clone, Copy, Debug, PartialEq, Eq)]
pub enum DecimalFault {
    /// It is no decimal text.
    NotDecimal,
    /// It is one, and its digits exceed 2^126 in magnitude or its places exceed 37.
    Wide,
}

impl Decimal {
    /// The number without its point.
    pub fn digits(self) -> i128
        ensures { result ≡ self.digits }
    {
        self.digits
    }

    /// How many digits stand behind the point.
    pub fn places(self) -> u32
        ensures { result ≡ self.places }
    {
        self.places
    }

    /// The number as a fraction. It always fits.
    pub fn to_frac(self) -> Frac
        ensures exact { SameNumber (fraction_of result) (decimal_number self) }
        ensures over { IsOver result self.digits (10 ^ self.places) }
    {
        ratio(self.digits, power(self.places))
    }

    // digits / 10^places, which is in its shortest form and not wide.
    pub(crate) fn shortest(digits: i128, places: u32) -> Decimal
        requires { IsShortest digits places }
        ensures digits { result.digits ≡ digits }
        ensures places { result.places ≡ places }
    {
        Decimal { digits, places }
    }
}
