// Common multiples of whole numbers.
ghost use Rattle.std.specs.Prelude.{◌<◌, ◌≤◌, ◌*◌, ◌^◌, ℕ, IfSome, IfNone};
ghost use Rattle.xc_model.specs.Divisors.{IsLeastCommon};

use crate::integers::gcd;

/// The least common multiple of two positive numbers; None exactly where it is 2^128 or more.
pub fn least_common(left: u128, right: u128) -> Option<u128>
    requires left { 0 < left }
    requires right { 0 < right }
    ensures some { IfSome result (IsLeastCommon left right) }
    ensures none { IfNone result ((l : ℕ) → IsLeastCommon left right l → 2 ^ 128 ≤ l) }
{
    left.checked_mul(cofactor(left, right))
}

// What the right one has beside their common factor.
fn cofactor(left: u128, right: u128) -> u128
    requires { 0 < right }
    ensures { IsLeastCommon left right (left * result) }
{
    right / gcd(left, right)
}
