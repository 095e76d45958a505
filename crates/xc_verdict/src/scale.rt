// The least common denominator of the ends of a binding's points.
ghost use Rattle.std.specs.Prelude.{◌<◌, ◌≤◌, ◌^◌, ℕ, length, All, IfSome, IfNone};
ghost use Rattle.xc_bind.specs.Placed.{IsInside};
ghost use Rattle.xc_verdict.specs.Widths.{IsLeastScale};

use crate::ranges::range_at;
use xc_bind::Binding;
use xc_interval::laws;
use xc_points::Point;

// The least common denominator of all ends; None where it is 2^128 or more.
pub fn least_scale(binding: &Binding, points: &[Point]) -> Option<u128>
    requires total { binding.now.total < length points.now }
    requires terms { All (IsInside points.now) binding.now.terms }
    ensures some { IfSome result (λ d. IsLeastScale points.now binding.now d) }
    ensures none { IfNone result ((d : ℕ) → IsLeastScale points.now binding.now d → 2 ^ 128 ≤ d) }
{
    laws::scales();
    let Some(mut scale) = range_at(points, binding.total).common_scale(1) else {
        return None;
    };
    for term in binding.terms.as_slice() {
        let Some(next) = range_at(points, term.point).common_scale(scale) else {
            return None;
        };
        scale = next;
    }
    Some(scale)
}
