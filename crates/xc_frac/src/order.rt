// The order of fractions, with no product taken.
ghost use Rattle.std.specs.Ordering.{MatchOrdering};
ghost use Rattle.std.specs.Prelude.{◌≡◌, ◌<◌, ◌*◌, ◌*ℤ◌, ◌<ℤ◌, pos};
ghost use Rattle.xc_model.specs.Order.{OrdersInt};

use std::cmp::Ordering;

// How a/b compares with c/d: as their whole parts do, and where these are equal, as what is left,
// each turned upside down and the two exchanged.
fn by_quotients(a: u128, b: u128, c: u128, d: u128) -> Ordering
    requires left { 0 < b }
    requires right { 0 < d }
    ensures { MatchOrdering result (a * d < c * b) (a * d ≡ c * b) (c * b < a * d) }
{
    let whole = a / b;
    let other_whole = c / d;
    if whole != other_whole {
        return whole.cmp(&other_whole);
    }
    let rest = a % b;
    let other_rest = c % d;
    if rest == 0 || other_rest == 0 {
        return rest.cmp(&other_rest);
    }
    by_quotients(d, other_rest, b, rest)
}

// How a/b compares with c/d.
pub fn order(a: i128, b: i128, c: i128, d: i128) -> Ordering
    requires left { pos 0 <ℤ b }
    requires right { pos 0 <ℤ d }
    ensures { OrdersInt result (a *ℤ d) (c *ℤ b) }
{
    let (left, right) = (a.unsigned_abs(), c.unsigned_abs());
    let (under, other_under) = (b.unsigned_abs(), d.unsigned_abs());
    if a < 0 {
        if c < 0 {
            by_quotients(right, other_under, left, under)
        } else {
            Ordering::Less
        }
    } else if c < 0 {
        Ordering::Greater
    } else {
        by_quotients(left, under, right, other_under)
    }
}
