// The checker's sums, one operation after another. A sum stays at the first operation that passes.
ghost use Rattle.std.specs.Prelude.{◌≡◌};
ghost use Rattle.xc_frac.specs.declared.wide.Op.{Op};
ghost use Rattle.xc_verify.specs.Objections.{IsMetAt, IsNothing};
ghost use Rattle.xc_verify.specs.Operations.{IsResult};
ghost use Rattle.xc_verify.specs.Sums.{IsNext, IsOnward, plus, minus, plus_product, minus_product, zero_ratio};

use crate::types::{Objection, What};
use xc_frac::laws::lowest_terms;
use xc_frac::{Exact, Frac, Wide};

/// 0, where a sum starts.
pub fn zero() -> Frac
    ensures { result ≡ zero_ratio }
{
    lowest_terms();
    Frac::zero()
}

/// A sum with a number more.
pub fn plus(sum: Result<Frac, Wide>, number: Frac) -> Result<Frac, Wide>
    ensures { IsNext sum (plus number) result }
{
    match sum {
        Ok(sum) => add_fractions(sum, number),
        Err(wide) => Err(wide),
    }
}

/// A sum with a number less.
pub fn minus(sum: Result<Frac, Wide>, number: Frac) -> Result<Frac, Wide>
    ensures { IsNext sum (minus number) result }
{
    match sum {
        Ok(sum) => subtract_fractions(sum, number),
        Err(wide) => Err(wide),
    }
}

/// A sum with a product more.
pub fn plus_product(sum: Result<Frac, Wide>, left: Frac, right: Frac) -> Result<Frac, Wide>
    ensures { IsNext sum (plus_product left right) result }
{
    match sum {
        Ok(sum) => add_unless_passed(sum, multiply_fractions(left, right)),
        Err(wide) => Err(wide),
    }
}

/// A sum with a product less.
pub fn minus_product(sum: Result<Frac, Wide>, left: Frac, right: Frac) -> Result<Frac, Wide>
    ensures { IsNext sum (minus_product left right) result }
{
    match sum {
        Ok(sum) => subtract_unless_passed(sum, multiply_fractions(left, right)),
        Err(wide) => Err(wide),
    }
}

// A sum with what a product gave, if it did not pass.
fn add_unless_passed(sum: Frac, product: Result<Frac, Wide>) -> Result<Frac, Wide>
    ensures { IsOnward Op.Add sum product result }
{
    match product {
        Ok(product) => add_fractions(sum, product),
        Err(wide) => Err(wide),
    }
}

// A sum without what a product gave, if it did not pass.
fn subtract_unless_passed(sum: Frac, product: Result<Frac, Wide>) -> Result<Frac, Wide>
    ensures { IsOnward Op.Sub sum product result }
{
    match product {
        Ok(product) => subtract_fractions(sum, product),
        Err(wide) => Err(wide),
    }
}

fn add_fractions(left: Frac, right: Frac) -> Result<Frac, Wide>
    ensures { IsResult Op.Add left right result }
{
    Frac::add(left, right)
}

fn subtract_fractions(left: Frac, right: Frac) -> Result<Frac, Wide>
    ensures { IsResult Op.Sub left right result }
{
    Frac::sub(left, right)
}

fn multiply_fractions(left: Frac, right: Frac) -> Result<Frac, Wide>
    ensures { IsResult Op.Mul left right result }
{
    Frac::mul(left, right)
}

/// What is met at the end of a sum that has to be 0.
pub fn objection_unless_zero(what: What, sum: Result<Frac, Wide>) -> Option<Objection>
    ensures { IsMetAt what IsNothing sum result }
{
    match sum {
        Ok(sum) => {
            if sum.num() == 0 {
                return None;
            }
            Some(Objection::Misses(what))
        }
        Err(wide) => Some(Objection::TooWide(what, wide)),
    }
}
