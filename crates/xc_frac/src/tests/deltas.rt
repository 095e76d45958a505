use super::{MOST, fraction, orders};
use crate::{Delta, Exact, Frac, Op, Wide};
use std::cmp::Ordering;
use std::test::Fail;

// Two whole parts, neither the least i128.
fn delta(real: i128, tiny: i128) -> Option<Delta<Frac>> {
    let Some(real) = fraction(real, 1) else {
        return None;
    };
    let Some(tiny) = fraction(tiny, 1) else {
        return None;
    };
    Some(Delta { real, tiny })
}

fn sums<E: Exact>(left: E, right: E) -> [Result<E, Wide>; 2] {
    [left.add(right), left.sub(right)]
}

#[test]
fn order_of_deltas(rt: HostRuntime) -> Result<(), Fail> {
    let cases = [
        ((1, 5), (2, -5), Ordering::Less, Ordering::Greater),
        ((1, -1), (1, 0), Ordering::Less, Ordering::Greater),
        ((0, -1), (0, -1), Ordering::Equal, Ordering::Less),
        ((MOST, 1), (MOST, -1), Ordering::Greater, Ordering::Greater),
    ];
    for (left, right, order, sign) in cases {
        let left = delta(left.0, left.1).ok_or("no delta")?;
        let right = delta(right.0, right.1).ok_or("no delta")?;
        assert_eq!(rt;
            orders(left, right),
            [order, order, sign],
            "{left:?} with {right:?}"
        );
    }
    Ok(())
}

// A product or a quotient is that with the fraction of the two parts.
fn answer(op: Op, left: Delta<Frac>, right: (i128, i128)) -> Option<Result<Delta<Frac>, Wide>> {
    let Some(other) = delta(right.0, right.1) else {
        return None;
    };
    let Some(by) = fraction(right.0, right.1) else {
        return None;
    };
    match op {
        Op::Add => Some(sums(left, other)[0]),
        Op::Sub => Some(sums(left, other)[1]),
        Op::Mul => Some(left.scaled(by)),
        Op::Div if by.num() == 0 => None,
        Op::Div => Some(left.over(by)),
    }
}

#[test]
fn wide_parts_of_deltas(rt: HostRuntime) -> Result<(), Fail> {
    let cases = [
        (Op::Add, (1, 2), (3, 4), Ok((4, 6))),
        (Op::Add, (MOST, MOST), (1, 2), Err((MOST, (1, 1)))),
        (Op::Add, (1, MOST), (1, 2), Err((MOST, (2, 1)))),
        (Op::Sub, (1, 2), (3, 5), Ok((-2, -3))),
        (Op::Sub, (-1, -MOST), (1, 2), Err((-MOST, (2, 1)))),
        (Op::Mul, (3, -6), (2, 3), Ok((2, -4))),
        (Op::Mul, (MOST, MOST - 1), (2, 1), Err((MOST, (2, 1)))),
        (Op::Mul, (1, MOST), (2, 1), Err((MOST, (2, 1)))),
        (Op::Div, (2, -4), (2, 3), Ok((3, -6))),
        (Op::Div, (MOST, MOST - 1), (1, 2), Err((MOST, (1, 2)))),
        (Op::Div, (1, MOST), (1, 2), Err((MOST, (1, 2)))),
    ];
    for (op, left, right, want) in cases {
        let left = delta(left.0, left.1).ok_or("no delta")?;
        match (answer(op, left, right).ok_or("by zero")?, want) {
            (Ok(got), Ok((real, tiny))) => assert_eq!(rt; Some(got), delta(real, tiny)),
            (Err(wide), Err((part, (num, den)))) => {
                let part = fraction(part, 1).ok_or("no fraction")?;
                let other = fraction(num, den).ok_or("no fraction")?;
                let want = match op {
                    Op::Mul => Wide {
                        op,
                        left: other,
                        right: part,
                    },
                    _ => Wide {
                        op,
                        left: part,
                        right: other,
                    },
                };
                assert_eq!(rt; wide, want);
            }
            _ => assert!(rt; false, "{op:?} of {left:?} and {right:?}"),
        }
    }
    Ok(())
}
