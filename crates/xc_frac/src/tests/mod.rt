ghost use Rattle.std.specs.Prelude.{◌≢◌, pos};

mod deltas;

use super::*;
use std::cmp::Ordering;
use std::test::Fail;

pub(super) const MOST: i128 = i128::MAX;

// num / den, where neither is the least i128.
pub(super) fn fraction(num: i128, den: i128) -> Option<Frac> {
    if num == i128::MIN || den == i128::MIN {
        return None;
    }
    Frac::of(num, den)
}

// An operation through the bound.
fn answer<K: Scalar>(op: Op, left: K, right: K) -> Result<K, Wide>
    requires { (K.parts right).real.num ≢ pos 0 }
{
    match op {
        Op::Add => left.add(right),
        Op::Sub => left.sub(right),
        Op::Mul => left.mul(right),
        Op::Div => left.div(right),
    }
}

#[test]
fn worked_operations(rt: HostRuntime) -> Result<(), Fail> {
    let power = 1 << 126;
    let cases = [
        (Op::Add, (1, 3), (1, 6), Some((1, 2))),
        (Op::Add, (1, 2), (1, 3), Some((5, 6))),
        (Op::Add, (MOST, 1), (1, 1), None),
        (Op::Add, (1, power), (1, power - 1), None),
        (Op::Add, (1, 1 << 100), (1, 1 << 100), Some((1, 1 << 99))),
        (Op::Add, (6, -4), (2, 1), Some((1, 2))),
        (Op::Sub, (1, 2), (1, 3), Some((1, 6))),
        (Op::Sub, (-MOST, 1), (1, 1), None),
        (Op::Mul, (1, 2), (1, 3), Some((1, 6))),
        (Op::Mul, (1, 3), (1, 1), Some((1, 3))),
        (Op::Mul, (MOST, 1), (2, 1), None),
        (Op::Mul, (MOST, 2), (2, MOST), Some((1, 1))),
        (Op::Div, (1, 2), (1, 3), Some((3, 2))),
        (Op::Div, (1, 2), (-3, 4), Some((-2, 3))),
        (Op::Div, (1, MOST), (MOST, 1), None),
    ];
    for (op, left, right, want) in cases {
        let left = fraction(left.0, left.1).ok_or("no fraction")?;
        let right = fraction(right.0, right.1).ok_or("no fraction")?;
        if right.num() == 0 {
            return Err(Fail::from("a case divides by 0"));
        }
        match (answer(op, left, right), want) {
            (Ok(got), Some(want)) => assert_eq!(rt; (got.num(), got.den()), want),
            (Err(wide), None) => assert_eq!(rt; wide, Wide { op, left, right }),
            _ => assert!(rt; false, "{op:?} of {left:?} and {right:?}"),
        }
    }
    Ok(())
}

// How two compare, how their negatives do, and the sign of the first, through the bound.
fn orders<E: Exact>(left: E, right: E) -> [Ordering; 3] {
    let sign = left.compare(E::zero());
    [left.compare(right), right.neg().compare(left.neg()), sign]
}

#[test]
fn order_of_fractions(rt: HostRuntime) -> Result<(), Fail> {
    let (less, greater) = (Ordering::Less, Ordering::Greater);
    let cases = [
        ((6, -4), (3, -2), Ordering::Equal, less),
        ((MOST, MOST - 1), (MOST - 1, MOST - 2), less, greater),
        ((-1, 2), (-1, 3), less, less),
        ((1, 3), (-1, 2), greater, greater),
        ((1, 3), (1, 2), less, greater),
    ];
    for (left, right, want, sign) in cases {
        let left = fraction(left.0, left.1).ok_or("no fraction")?;
        let right = fraction(right.0, right.1).ok_or("no fraction")?;
        assert_eq!(rt;
            orders(left, right),
            [want, want, sign],
            "{left:?} with {right:?}"
        );
    }
    let reduced = Frac::of(6, -4).ok_or("no fraction")?;
    assert_eq!(rt; (reduced.num(), reduced.den()), (-3, 2));
    assert_eq!(rt; Frac::of(1, 0), None);
    assert_eq!(rt; Some(ratio(-30, power(2))), fraction(-3, 10));
    Ok(())
}

#[test]
fn common_multiples(rt: HostRuntime) -> Result<(), Fail> {
    let half = 1 << 127;
    let cases = [
        (1, 1, Some(1)),
        (4, 6, Some(12)),
        (20, 1, Some(20)),
        (7, 5, Some(35)),
        (half, half, Some(half)),
        (half, half - 1, None),
        (u128::MAX, 3, Some(u128::MAX)),
        (u128::MAX, 2, None),
    ];
    for (left, right, want) in cases {
        if left == 0 || right == 0 {
            return Err(Fail::from("a case asks for a multiple of 0"));
        }
        assert_eq!(rt; least_common(left, right), want, "{left} and {right}");
    }
    Ok(())
}
