// Ends over a common denominator, and their sizes there.
ghost use Rattle.std.specs.Prelude.{◌≡◌, ◌<◌, unsigned_abs, IfSome, IfNone};
ghost use Rattle.xc_interval.specs.Scales.{IsOnScale, HasEndsOnScale, IsMultipleOf, IsNoneBelow, size_of, greatest_end, saturated};

use crate::interval::Interval;
use xc_frac::{Frac, least_common};

impl Interval<Frac> {
    /// The least common multiple of a number and the denominators of both ends; None where that is 2^128 or more.
    pub fn common_scale(&self, scale: u128) -> Option<u128>
        requires { 0 < scale }
        ensures some { IfSome result (IsMultipleOf scale (λ m. HasEndsOnScale m self.now)) }
        ensures none { IfNone result (IsNoneBelow scale (λ m. HasEndsOnScale m self.now)) }
    {
        let Some(with_low) = with_end(scale, self.low.value()) else {
            return None;
        };
        with_end(with_low, self.high.value())
    }

    /// The greater magnitude of the two ends over a common denominator, or the greatest 128-bit number where it
    /// passes that.
    pub fn greatest(&self, scale: u128) -> u128
        ensures { result ≡ saturated (greatest_end scale self.now) }
    {
        let low = size(scale, self.low.value());
        let high = size(scale, self.high.value());
        low.max(high)
    }
}

// The least common multiple with a denominator.
fn with_end(scale: u128, end: Frac) -> Option<u128>
    requires { 0 < scale }
    ensures some { IfSome result (IsMultipleOf scale (λ m. IsOnScale m end)) }
    ensures none { IfNone result (IsNoneBelow scale (λ m. IsOnScale m end)) }
{
    least_common(scale, den_size(end))
}

// The magnitude of a number over a common denominator.
fn size(scale: u128, number: Frac) -> u128
    ensures { result ≡ saturated (size_of scale number) }
{
    num_size(number).saturating_mul(scale / den_size(number))
}

// The magnitude of the denominator.
fn den_size(number: Frac) -> u128
    ensures is { result ≡ unsigned_abs number.den }
    ensures some { 0 < result }
{
    number.den().unsigned_abs()
}

// The magnitude of the numerator.
fn num_size(number: Frac) -> u128
    ensures { result ≡ unsigned_abs number.num }
{
    number.num().unsigned_abs()
}
