ghost use Rattle.std.specs.Prelude.{pos};
ghost use Rattle.xc_model.specs.Fraction.{whole};
ghost use Rattle.xc_model.specs.Ratio.{fraction_of};
ghost use Rattle.xc_model.proofs.Numbers.{same-refl};
ghost use Rattle.xc_model.specs.Parts.{real_alone};
ghost use Rattle.xc_frac.specs.Passes.{PassesAs};
ghost use Rattle.xc_frac.specs.Rooms.{sums_fit, differences_fit, products_fit, quotients_fit};

use crate::exact::{Exact, Scalar};
use crate::frac::Frac;
use crate::wide::Wide;
use std::cmp::Ordering;

impl Exact for Frac {
    ghost parts = { λ x. real_alone (fraction_of x) };

    ghost passes = { PassesAs };

    ghost sums_have_room = { sums_fit };

    ghost differences_have_room = { differences_fit };

    fn zero() -> Frac {
        Frac::whole(0)
    }

    fn add(self, other: Frac) -> Result<Frac, Wide> {
        Frac::add(self, other)
    }

    fn sub(self, other: Frac) -> Result<Frac, Wide> {
        Frac::sub(self, other)
    }

    fn neg(self) -> Frac {
        Frac::neg(self)
    }

    fn compare(self, other: Frac) -> Ordering {
        Frac::compare(self, other)
    }
}

impl Scalar for Frac {
    ghost no_tiny = { λ x. same-refl (whole (pos 0)) };

    ghost products_have_room = { products_fit };

    ghost quotients_have_room = { quotients_fit };

    fn one() -> Frac {
        Frac::whole(1)
    }

    fn mul(self, other: Frac) -> Result<Frac, Wide> {
        Frac::mul(self, other)
    }

    fn div(self, other: Frac) -> Result<Frac, Wide> {
        Frac::div(self, other)
    }
}
