// Whether a binding is narrow.
ghost use Rattle.std.specs.Prelude.{◌≡◌, ◌<◌, ◌≤◌, ◌^◌, ◌↔◌, length, All, IsTrue, unsigned_abs};
ghost use Rattle.xc_bind.specs.Placed.{IsInside};
ghost use Rattle.xc_interval.specs.Scales.{saturated};
ghost use Rattle.xc_bind.specs.Equation.{most_places};
ghost use Rattle.xc_verdict.specs.Widths.{weight_size, terms_size, width, IsNarrowBinding};

use crate::ranges::range_at;
use crate::scale::least_scale;
use xc_bind::{Binding, Term};
use xc_decimal::Decimal;
use xc_frac::power;
use xc_interval::laws;
use xc_points::Point;

// The greatest width of a narrow binding.
const MOST: u128 = 1 << 126;

// Whether the sums of a binding have room: its width is at most 2^126.
pub fn is_narrow(binding: &Binding, points: &[Point]) -> bool
    requires total { binding.now.total < length points.now }
    requires terms { All (IsInside points.now) binding.now.terms }
    ensures { IsTrue result ↔ IsNarrowBinding points.now binding.now }
{
    match least_scale(binding, points) {
        Some(scale) => fits(width(binding, points, scale)),
        None => false,
    }
}

// Whether a width is that of a narrow binding.
fn fits(width: u128) -> bool
    ensures { IsTrue result ↔ (width ≤ 2 ^ 126) }
{
    width <= MOST
}

// The width over a denominator.
fn width(binding: &Binding, points: &[Point], scale: u128) -> u128
    requires total { binding.now.total < length points.now }
    requires terms { All (IsInside points.now) binding.now.terms }
    ensures { result ≡ saturated (width points.now binding.now scale) }
{
    laws::saturated_sums();
    let terms = binding.terms.as_slice();
    let places = most_places(terms);
    let power = power(places);
    let one = scale.saturating_mul(power);
    let total = power.saturating_mul(range_at(points, binding.total).greatest(scale));
    one.saturating_add(total)
        .saturating_add(terms_size(terms, points, places, scale))
}

// The greatest number of places of a weight.
fn most_places(terms: &[Term]) -> u32
    ensures is { result ≡ most_places terms.now }
    ensures narrow { result ≤ 37 }
{
    let mut most = 0;
    for term in terms {
        most = most.max(term.weight.places());
    }
    most
}

// What the terms add to the width.
fn terms_size(terms: &[Term], points: &[Point], places: u32, scale: u128) -> u128
    requires inside { All (IsInside points.now) terms.now }
    requires places { places ≤ 37 }
    ensures { result ≡ saturated (terms_size points.now places scale terms.now) }
{
    laws::saturated_sums();
    let mut sum: u128 = 0;
    for term in terms {
        let range = range_at(points, term.point);
        let size = weight_size(places, term.weight).saturating_mul(range.greatest(scale));
        sum = sum.saturating_add(size);
    }
    sum
}

// The magnitude of a weight times 10^places.
fn weight_size(places: u32, weight: Decimal) -> u128
    requires { places ≤ 37 }
    ensures { result ≡ saturated (weight_size places weight) }
{
    digits_size(weight).saturating_mul(power(places.saturating_sub(weight.places())))
}

// The magnitude of the digits.
fn digits_size(weight: Decimal) -> u128
    ensures { result ≡ unsigned_abs weight.digits }
{
    weight.digits().unsigned_abs()
}
