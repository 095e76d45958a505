use crate::{Decimal, DecimalFault, read_decimal, read_frac, write_frac};
use std::alloc::{AllocError, Global};
use std::test::Fail;
use xc_frac::Frac;

// The digits and places that a text spells, or the fault that it has.
fn told(text: &str) -> Result<(i128, u32), DecimalFault> {
    let decimal = read_decimal(text)?;
    Ok((decimal.digits(), decimal.places()))
}

#[test]
fn decimal_texts(rt: HostRuntime) -> Result<(), Fail> {
    let (no_decimal, wide) = (Err(DecimalFault::NotDecimal), Err(DecimalFault::Wide));
    let cases = [
        ("-0.50", Ok((-5, 1))),
        ("000.1000", Ok((1, 1))),
        ("5.", Ok((5, 0))),
        ("-0", Ok((0, 0))),
        ("-0.000", Ok((0, 0))),
        (".5", Ok((5, 1))),
        ("+.25", Ok((25, 2))),
        ("+7", Ok((7, 0))),
        ("1200", Ok((1200, 0))),
        ("10.010", Ok((1001, 2))),
        ("0.0000000000000000000000000000000000001", Ok((1, 37))),
        (
            "85070591730234615865843651857942052864",
            Ok((85_070_591_730_234_615_865_843_651_857_942_052_864, 0)),
        ),
        (
            "-8507059173023461586.5843651857942052864",
            Ok((-85_070_591_730_234_615_865_843_651_857_942_052_864, 19)),
        ),
        ("", no_decimal),
        (".", no_decimal),
        ("+", no_decimal),
        ("-", no_decimal),
        ("-.", no_decimal),
        ("+-1", no_decimal),
        ("--1", no_decimal),
        ("1e3", no_decimal),
        ("1E3", no_decimal),
        (" 1", no_decimal),
        ("1 ", no_decimal),
        ("1,0", no_decimal),
        ("1.2.3", no_decimal),
        ("1..2", no_decimal),
        ("0x1", no_decimal),
        ("INF", no_decimal),
        ("NaN", no_decimal),
        ("1-", no_decimal),
        ("\u{661}", no_decimal),
        ("1\u{662}", no_decimal),
        ("\u{ff11}", no_decimal),
        ("1\n", no_decimal),
        ("100000000000000000000000000000000000000000000", wide),
        ("0.00000000000000000000000000000000000001", wide),
        ("85070591730234615865843651857942052865", wide),
        ("-85070591730234615865843651857942052865", wide),
        ("8507059173023461586.5843651857942052865", wide),
        ("340282366920938463463374607431768211456", wide),
    ];
    for (text, want) in cases {
        assert_eq!(rt; told(text), want, "{text}");
    }
    Ok(())
}

// A text with a digit many times in its midst.
fn long(
    alloc: Global,
    start: &str,
    digit: char,
    count: u32,
    end: &str,
) -> Result<String, AllocError> {
    let mut text = String::new(alloc);
    text.push_str(start)?;
    for _ in 0..count {
        text.push(digit)?;
    }
    text.push_str(end)?;
    Ok(text)
}

#[test]
fn texts_of_a_million_digits(rt: HostRuntime) -> Result<(), Fail> {
    let million = 1_000_000;
    let leading = long(rt.alloc(), "-", '0', million, "12.5")?;
    assert_eq!(rt; told(leading.as_str()), Ok((-125, 1)));
    let trailing = long(rt.alloc(), "12.5", '0', million, "")?;
    assert_eq!(rt; told(trailing.as_str()), Ok((125, 1)));
    let great = long(rt.alloc(), "", '9', million, "")?;
    assert_eq!(rt; told(great.as_str()), Err(DecimalFault::Wide));
    let small = long(rt.alloc(), ".", '0', million, "1")?;
    assert_eq!(rt; told(small.as_str()), Err(DecimalFault::Wide));
    let bad = long(rt.alloc(), "", '9', million, "x")?;
    assert_eq!(rt; told(bad.as_str()), Err(DecimalFault::NotDecimal));
    Ok(())
}

#[test]
fn spellings_of_fractions(rt: HostRuntime) -> Result<(), Fail> {
    let most = i128::MAX;
    let cases = [
        ((0, 1), "0"),
        ((1, 1), "1"),
        ((-7, 1), "-7"),
        ((-1, 2), "-1/2"),
        ((301, 2), "301/2"),
        ((10, 101), "10/101"),
        (
            (-most, most - 1),
            "-170141183460469231731687303715884105727/170141183460469231731687303715884105726",
        ),
    ];
    for ((num, den), text) in cases {
        let value = fraction(num, den).ok_or("no fraction")?;
        let mut out = Vec::new(rt.alloc());
        out.extend_from_slice("= ".as_bytes())?;
        write_frac(rt.alloc(), &mut out, value)
            .ok()
            .ok_or("no memory")?;
        let want = format!(in rt.alloc(); "= {text}")?;
        assert_eq!(rt; out.as_slice(), want.as_bytes(), "{text}");
        assert_eq!(rt; read_frac(text.as_bytes()), Some(value), "{text}");
    }
    let decimals = [
        ("-0.50", "-1/2"),
        ("12.5", "25/2"),
        ("0", "0"),
        ("100", "100"),
    ];
    for (text, spelling) in decimals {
        let decimal: Decimal = read_decimal(text).ok().ok_or("no decimal text")?;
        assert_eq!(rt;
            read_frac(spelling.as_bytes()),
            Some(decimal.to_frac()),
            "{text}"
        );
    }
    Ok(())
}

fn fraction(num: i128, den: i128) -> Option<Frac> {
    if num == i128::MIN || den == i128::MIN {
        return None;
    }
    Frac::of(num, den)
}

#[test]
fn texts_that_spell_no_fraction(rt: HostRuntime) -> Result<(), Fail> {
    let cases = [
        "",
        "-",
        "/",
        "1/",
        "/2",
        "-0",
        "+1",
        "01",
        "-01",
        "00",
        "1/1",
        "2/2",
        "2/4",
        "0/1",
        "0/2",
        "1/0",
        "1/-2",
        "1/02",
        "1/2/3",
        "1.5",
        " 1",
        "1 ",
        "1\n",
        "\u{661}",
        "170141183460469231731687303715884105728",
        "-170141183460469231731687303715884105728",
        "1/170141183460469231731687303715884105728",
    ];
    for text in cases {
        assert_eq!(rt; read_frac(text.as_bytes()), None, "{text}");
    }
    Ok(())
}
