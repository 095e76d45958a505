// Facts that are wide.
ghost use Rattle.std.specs.Prelude.{◌≡◌, ◌<◌, length};
ghost use Rattle.xc_joint.specs.Causes.{IsWideOf};
ghost use Rattle.xc_joint.specs.Steps.Wides.{IsLeastIn, IsWideAt};
ghost use Rattle.xc_lists.specs.Places.{least};
ghost use Rattle.xc_system.specs.Components.{IsComponent};
ghost use Rattle.xc_system.specs.Spots.{is_wide_fact};

use xc_system::laws::components_are_closed;
use xc_system::{Component, System};

/// The wide fact of least number of a component.
pub fn least_wide(system: &System, component: &Component) -> Option<u32>
    requires { IsComponent system.now component.now }
    ensures { IsLeastIn (IsWideOf system.now component.now) result }
{
    components_are_closed();
    let mut least = None;
    for point in component.points.as_slice() {
        least = lesser_number(least, wide_at(system, *point));
    }
    least
}

// The wide fact of least number of a point.
fn wide_at(system: &System, point: u32) -> Option<u32>
    requires { point < system.now.points }
    ensures { IsLeastIn (IsWideAt system.now point) result }
{
    for fact in system.facts_of(point) {
        if is_wide(system, *fact) {
            return Some(*fact);
        }
    }
    None
}

// Whether a fact is wide.
fn is_wide(system: &System, fact: u32) -> bool
    requires { fact < length system.now.bounds }
    ensures { result ≡ is_wide_fact system.now.bounds fact }
{
    system.bounds()[fact as usize].range.is_none()
}

// The lesser of two numbers.
fn lesser_number(one: Option<u32>, other: Option<u32>) -> Option<u32>
    ensures { result ≡ least one other }
{
    let Some(first) = one else {
        return other;
    };
    let Some(second) = other else {
        return one;
    };
    Some(first.min(second))
}
