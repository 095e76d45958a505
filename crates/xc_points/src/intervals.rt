// The interval of each fact (Calculations 1.1: the interval of a fact's value).
ghost use Rattle.std.specs.Prelude.{◌≡◌, ◌++◌, ◌∷◌, [], IfOk};
ghost use Rattle.xc_interval.specs.Reported.{IsNearPlace};
ghost use Rattle.xc_points.specs.Gathered.{AreEnds, AreEndsOf};
ghost use Rattle.xc_points.specs.Values.{AreEndsOfNumber};

use std::alloc::Global;
use xc_decimal::Decimal;
use xc_frac::Frac;
use xc_frac::laws::lowest_terms;
use xc_interval::{Interval, Mode, reported};
use xc_lists::Memory;
use xc_report::{Fact, Reading};

// How many decimals there may be, on either side of the point, for an interval to be made.
const MOST_DECIMALS: u64 = 37;

/// The interval of each fact; None where it is wide.
pub fn intervals_of(
    alloc: Global,
    facts: &[Fact],
    mode: Mode,
) -> Result<Vec<Option<Interval<Frac>>>, Memory>
    ensures { IfOk result (λ ends. AreEnds mode facts.now ends.items) }
{
    let mut ends = Vec::new(alloc);
    for fact in facts {
        put_last(&mut ends, interval_of(fact, mode))?;
    }
    Ok(ends)
}

// Puts the interval of the next fact last. It is taken apart and put together again, since the prover has to
// meet the type of its ends here.
fn put_last(
    ends: &mut Vec<Option<Interval<Frac>>>,
    next: Option<Interval<Frac>>,
) -> Result<(), Memory>
    ensures { IfOk result (λ _. ends.new.items ≡ ends.old.items ++ next ∷ []) }
{
    match next {
        None => ends.push(None)?,
        Some(Interval { low, high }) => ends.push(Some(Interval { low, high }))?,
    }
    Ok(())
}

// The numbers for which a fact may stand; None where it is wide.
fn interval_of(fact: &Fact, mode: Mode) -> Option<Interval<Frac>>
    ensures { AreEndsOf mode fact.now result }
{
    match fact.value {
        Reading::Number(value) => interval_around(value, fact.decimals, mode),
        Reading::Wide => None,
    }
}

// The same of a number with decimals.
fn interval_around(value: Decimal, decimals: Option<i64>, mode: Mode) -> Option<Interval<Frac>>
    ensures { AreEndsOfNumber mode decimals value result }
{
    match decimals {
        None => interval_near(value, None, mode),
        Some(places) => {
            if places.unsigned_abs() > MOST_DECIMALS {
                return None;
            }
            interval_near(value, Some(places as i32), mode)
        }
    }
}

// The same where the decimals are from -37 to 37.
fn interval_near(value: Decimal, decimals: Option<i32>, mode: Mode) -> Option<Interval<Frac>>
    requires { IsNearPlace decimals }
    ensures { AreEndsOfNumber mode decimals value result }
{
    // An operation for an end passes on this value or on none, since a number has one fraction.
    lowest_terms();
    match reported(value.to_frac(), decimals, mode) {
        Ok(interval) => Some(interval),
        Err(_) => None,
    }
}
