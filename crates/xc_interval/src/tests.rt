use crate::{End, Interval, Mode, Range, reported};
use std::test::Fail;
use xc_frac::{Delta, Exact, Frac, Op, Wide};

const TEN_37: i128 = 10_000_000_000_000_000_000_000_000_000_000_000_000;

const MOST: i128 = i128::MAX;

// A number as its two parts.
type Number = (i128, i128);

// An end by its kind, `[` and `]` closed, `(` and `)` open, and its number.
type Side = (char, i128, i128);

// What is answered: the two ends, or the operation that passes.
type Want = Result<(Side, Side), (Op, Number, Number)>;

// What is done with intervals.
#[derive(Clone, Copy, Debug)]
enum Doing {
    Meet((Side, Side), (Side, Side)),
    Negated((Side, Side)),
    Plus((Side, Side), (Side, Side)),
    Scaled((Side, Side), Number),
}

fn fraction(number: Number) -> Option<Frac> {
    if number.0 == i128::MIN || number.1 == i128::MIN {
        return None;
    }
    Frac::of(number.0, number.1)
}

fn end(side: Side) -> Option<End<Frac>> {
    match fraction((side.1, side.2)) {
        Some(value) if side.0 == '[' || side.0 == ']' => Some(End::Closed(value)),
        Some(value) => Some(End::Open(value)),
        None => None,
    }
}

fn interval(ends: (Side, Side)) -> Option<Interval<Frac>> {
    match (end(ends.0), end(ends.1)) {
        (Some(low), Some(high)) => Some(Interval { low, high }),
        _ => None,
    }
}

fn wanted(want: Want) -> Option<Result<Interval<Frac>, Wide>> {
    match want {
        Ok(ends) => match interval(ends) {
            Some(found) => Some(Ok(found)),
            None => None,
        },
        Err((op, left, right)) => match (fraction(left), fraction(right)) {
            (Some(left), Some(right)) => Some(Err(Wide { op, left, right })),
            _ => None,
        },
    }
}

// The interval of a fact, where its decimals are near enough.
fn report(
    number: Number,
    decimals: Option<i32>,
    mode: Mode,
) -> Option<Result<Interval<Frac>, Wide>> {
    let Some(value) = fraction(number) else {
        return None;
    };
    let Some(places) = decimals else {
        return Some(reported(value, None, mode));
    };
    if places < -37 {
        return None;
    }
    if places > 37 {
        return None;
    }
    Some(reported(value, Some(places), mode))
}

// What is answered, where it may be asked.
fn done(doing: Doing) -> Option<Result<Interval<Frac>, Wide>> {
    match doing {
        Doing::Meet(one, other) => match (interval(one), interval(other)) {
            (Some(one), Some(other)) => Some(Ok(one.meet(&other))),
            _ => None,
        },
        Doing::Negated(one) => match interval(one) {
            Some(one) => Some(Ok(one.negated())),
            None => None,
        },
        Doing::Plus(one, other) => match (interval(one), interval(other)) {
            (Some(one), Some(other)) => sum(&one, &other),
            _ => None,
        },
        Doing::Scaled(one, by) => match (interval(one), fraction(by)) {
            (Some(one), Some(by)) => product(&one, by),
            _ => None,
        },
    }
}

fn sum(one: &Interval<Frac>, other: &Interval<Frac>) -> Option<Result<Interval<Frac>, Wide>> {
    if one.is_empty() {
        return None;
    }
    if other.is_empty() {
        return None;
    }
    Some(one.plus(other))
}

fn product(one: &Interval<Frac>, by: Frac) -> Option<Result<Interval<Frac>, Wide>> {
    if by.num() == 0 {
        return None;
    }
    Some(one.scaled(by))
}

// The table of the modes: a value, its decimals, the mode, and the interval or the operation that passes.
#[test]
fn intervals_of_facts(rt: HostRuntime) -> Result<(), Fail> {
    let (r, t) = (Mode::Rounding, Mode::Truncation);
    let cases = [
        ((5, 2), None, r, Ok((('[', 5, 2), (']', 5, 2)))),
        ((5, 2), None, t, Ok((('[', 5, 2), (']', 5, 2)))),
        ((0, 1), None, r, Ok((('[', 0, 1), (']', 0, 1)))),
        ((0, 1), None, t, Ok((('[', 0, 1), (']', 0, 1)))),
        ((-5, 2), None, r, Ok((('[', -5, 2), (']', -5, 2)))),
        ((-5, 2), None, t, Ok((('[', -5, 2), (']', -5, 2)))),
        ((50, 1), Some(0), r, Ok((('[', 99, 2), (']', 101, 2)))),
        ((50, 1), Some(0), t, Ok((('[', 50, 1), (')', 51, 1)))),
        ((0, 1), Some(0), r, Ok((('[', -1, 2), (']', 1, 2)))),
        ((0, 1), Some(0), t, Ok((('(', -1, 1), (')', 1, 1)))),
        ((-50, 1), Some(0), r, Ok((('[', -101, 2), (']', -99, 2)))),
        ((-50, 1), Some(0), t, Ok((('(', -51, 1), (']', -50, 1)))),
        ((252, 5), Some(1), r, Ok((('[', 1007, 20), (']', 1009, 20)))),
        ((252, 5), Some(1), t, Ok((('[', 252, 5), (')', 101, 2)))),
        ((2, 1), Some(-1), r, Ok((('[', -3, 1), (']', 7, 1)))),
        ((-2, 1), Some(-1), t, Ok((('(', -12, 1), (']', -2, 1)))),
        (
            (1, 1),
            Some(37),
            t,
            Ok((('[', 1, 1), (')', TEN_37 + 1, TEN_37))),
        ),
        (
            (1, 1),
            Some(37),
            r,
            Ok((
                ('[', 2 * TEN_37 - 1, 2 * TEN_37),
                (']', 2 * TEN_37 + 1, 2 * TEN_37),
            )),
        ),
        (
            (0, 1),
            Some(37),
            r,
            Ok((('[', -1, 2 * TEN_37), (']', 1, 2 * TEN_37))),
        ),
        (
            (0, 1),
            Some(37),
            t,
            Ok((('(', -1, TEN_37), (')', 1, TEN_37))),
        ),
        (
            (-1, 1),
            Some(37),
            r,
            Ok((
                ('[', -2 * TEN_37 - 1, 2 * TEN_37),
                (']', 1 - 2 * TEN_37, 2 * TEN_37),
            )),
        ),
        (
            (-1, 1),
            Some(37),
            t,
            Ok((('(', -TEN_37 - 1, TEN_37), (']', -1, 1))),
        ),
        (
            (1, 1),
            Some(-37),
            t,
            Ok((('[', 1, 1), (')', TEN_37 + 1, 1))),
        ),
        (
            (1, 1),
            Some(-37),
            r,
            Ok((('[', 1 - TEN_37 / 2, 1), (']', 1 + TEN_37 / 2, 1))),
        ),
        (
            (0, 1),
            Some(-37),
            r,
            Ok((('[', -TEN_37 / 2, 1), (']', TEN_37 / 2, 1))),
        ),
        (
            (0, 1),
            Some(-37),
            t,
            Ok((('(', -TEN_37, 1), (')', TEN_37, 1))),
        ),
        (
            (-1, 1),
            Some(-37),
            t,
            Ok((('(', -1 - TEN_37, 1), (']', -1, 1))),
        ),
        (
            (-1, 1),
            Some(-37),
            r,
            Ok((('[', -1 - TEN_37 / 2, 1), (']', TEN_37 / 2 - 1, 1))),
        ),
        // an operation for an end passes
        ((MOST, 1), Some(0), r, Err((Op::Sub, (MOST, 1), (1, 2)))),
        ((MOST, 1), Some(0), t, Err((Op::Add, (MOST, 1), (1, 1)))),
        ((-MOST, 1), Some(0), t, Err((Op::Sub, (-MOST, 1), (1, 1)))),
        (
            (MOST, 1),
            Some(37),
            t,
            Err((Op::Add, (MOST, 1), (1, TEN_37))),
        ),
        ((MOST, 1), None, r, Ok((('[', MOST, 1), (']', MOST, 1)))),
    ];
    for (number, decimals, mode, want) in cases {
        let answer = report(number, decimals, mode);
        assert!(rt; answer.is_some());
        assert_eq!(rt; answer, wanted(want), "{number:?} {decimals:?} {mode:?}");
        if let (Some(Ok(found)), Some(value)) = (answer, fraction(number)) {
            assert!(rt; found.contains(value) && !found.is_empty());
        }
    }
    Ok(())
}

// Which halves from 1/2 to 5/2 lie in an interval, and whether it is empty.
#[test]
fn what_lies_in_an_interval(rt: HostRuntime) -> Result<(), Fail> {
    let none = [false, false, false, false, false];
    let cases = [
        (
            (('[', 1, 1), (']', 2, 1)),
            [false, true, true, true, false],
            false,
        ),
        (
            (('(', 1, 1), (')', 2, 1)),
            [false, false, true, false, false],
            false,
        ),
        (
            (('[', 1, 1), (')', 2, 1)),
            [false, true, true, false, false],
            false,
        ),
        (
            (('[', 1, 1), (']', 1, 1)),
            [false, true, false, false, false],
            false,
        ),
        ((('[', 1, 1), (')', 1, 1)), none, true),
        ((('(', 1, 1), (']', 1, 1)), none, true),
        ((('[', 2, 1), (']', 1, 1)), none, true),
        ((('[', 50, 1), (']', 99, 2)), none, true),
        ((('[', 51, 1), (')', 51, 1)), none, true),
        ((('[', 51, 1), (']', 52, 1)), none, false),
    ];
    for (ends, lie, is_empty) in cases {
        let these = interval(ends).ok_or("no interval")?;
        assert_eq!(rt; these.is_empty(), is_empty, "{these:?}");
        assert_eq!(rt; Range::of(Some(these)).is_empty(), is_empty, "{these:?}");
        for (halves, lies) in (1..6).zip(lie) {
            let value = fraction((halves, 2)).ok_or("no fraction")?;
            assert_eq!(rt; these.contains(value), lies, "{these:?} {halves}/2");
        }
    }
    Ok(())
}

#[test]
fn worked_arithmetic(rt: HostRuntime) -> Result<(), Fail> {
    let one = (('[', 50, 1), (')', 51, 1));
    let other = (('(', -3, 2), (']', 99, 2));
    let touching = (('[', 51, 1), (']', 52, 1));
    let closed = (('[', 0, 1), (']', 1, 1));
    let open = (('(', 0, 1), (')', 1, 1));
    let large = (('[', 0, 1), (']', MOST, 1));
    let cases = [
        (Doing::Meet(one, other), Ok((('[', 50, 1), (']', 99, 2)))),
        (Doing::Meet(one, one), Ok(one)),
        (Doing::Meet(one, touching), Ok((('[', 51, 1), (')', 51, 1)))),
        (Doing::Meet(touching, touching), Ok(touching)),
        (Doing::Meet(closed, open), Ok(open)),
        (Doing::Meet(open, closed), Ok(open)),
        (Doing::Negated(one), Ok((('(', -51, 1), (']', -50, 1)))),
        (Doing::Plus(one, other), Ok((('(', 97, 2), (')', 201, 2)))),
        (
            Doing::Scaled(one, (2, 1)),
            Ok((('[', 100, 1), (')', 102, 1))),
        ),
        (
            Doing::Scaled(one, (-1, 2)),
            Ok((('(', -51, 2), (']', -25, 1))),
        ),
        (
            Doing::Plus(large, closed),
            Err((Op::Add, (MOST, 1), (1, 1))),
        ),
        (
            Doing::Scaled(large, (2, 1)),
            Err((Op::Mul, (MOST, 1), (2, 1))),
        ),
    ];
    for (doing, want) in cases {
        let answer = done(doing);
        assert!(rt; answer.is_some());
        assert_eq!(rt; answer, wanted(want), "{doing:?}");
    }
    Ok(())
}

// Whether the first of two ends is the tighter one, as low ends and as high ends.
#[test]
fn tighter_ends(rt: HostRuntime) -> Result<(), Fail> {
    for (one, other, low, high) in [
        (('[', 1, 1), ('[', 1, 1), false, false),
        (('(', 1, 1), ('[', 1, 1), true, true),
        (('[', 1, 1), ('(', 1, 1), false, false),
        (('(', 1, 1), ('(', 1, 1), false, false),
        (('[', 2, 1), ('(', 1, 1), true, false),
        (('[', 1, 1), ('(', 2, 1), false, true),
    ] {
        let one = end(one).ok_or("no end")?;
        let other = end(other).ok_or("no end")?;
        assert_eq!(rt; one.is_tighter_low(other), low, "{one:?} {other:?}");
        assert_eq!(rt; one.is_tighter_high(other), high, "{one:?} {other:?}");
    }
    let wide = interval((('(', 1, 3), (']', 3, 1))).ok_or("no interval")?;
    let narrow = interval((('[', -7, 4), (']', 5, 2))).ok_or("no interval")?;
    let both = interval((('(', 1, 3), (']', 5, 2))).ok_or("no interval")?;
    let range = Range::of(Some(wide)).narrowed(Some(narrow));
    assert_eq!(rt; range, Range::Meets(both));
    assert_eq!(rt; range.common_scale(4), Some(12));
    assert_eq!(rt; narrow.greatest(12), 30);
    assert_eq!(rt; range.greatest(6), 15);
    assert!(rt; range.narrowed(None).is_wide());
    Ok(())
}

// The same code over numbers with an infinitely small part.
#[test]
fn intervals_with_small_parts(rt: HostRuntime) -> Result<(), Fail> {
    let zero = fraction((0, 1)).ok_or("no fraction")?;
    let one = fraction((1, 1)).ok_or("no fraction")?;
    let (at, past) = (
        Delta {
            real: zero,
            tiny: zero,
        },
        Delta {
            real: zero,
            tiny: one,
        },
    );
    let these = Interval {
        low: End::Open(at),
        high: End::Closed(past),
    };
    assert!(rt; !these.is_empty());
    assert!(rt; these.contains(past));
    assert!(rt; !these.contains(at));
    assert_eq!(rt;
        these.negated(),
        Interval {
            low: End::Closed(past.neg()),
            high: End::Open(at.neg())
        }
    );
    if !these.is_empty() {
        let twice = Interval {
            low: End::Open(at),
            high: End::Closed(Delta {
                real: zero,
                tiny: fraction((2, 1)).ok_or("no fraction")?,
            }),
        };
        assert_eq!(rt; these.plus(&these), Ok(twice));
    }
    Ok(())
}
