// The points of facts that are written out, and the interval of each fact.
use crate::points;
use crate::types::{Point, Points};
use std::alloc::Global;
use std::process::Abort;
use std::test::Fail;
use xc_decimal::read_decimal;
use xc_frac::Frac;
use xc_interval::{End, Interval, Mode, Range};
use xc_lists::{Items, Text};
use xc_names::NameId;
use xc_report::{Fact, Reading, Report};

// The numbers of fewer facts than these are numbers of facts.
const MOST_FACTS: usize = 2_147_483_648;

fn number_of(word: Option<&str>) -> u64 {
    word.unwrap_or("").parse::<u64>().unwrap_or(0)
}

fn reading_of(text: &str) -> Reading {
    match read_decimal(text) {
        Ok(number) => Reading::Number(number),
        Err(_) => Reading::Wide,
    }
}

// A fact that is written `concept key value decimals`, the last word being no number where it is exact.
fn fact_of(alloc: Global, fact: &str) -> Result<Fact, Fail> {
    let mut words = fact.split(' ');
    let concept = number_of(words.next());
    let key = number_of(words.next());
    let value = reading_of(words.next().unwrap_or(""));
    let decimals = words.next().unwrap_or("").parse::<i64>().ok();
    Ok(Fact {
        id: Text::of(String::from_str(alloc, fact)?),
        concept: NameId(concept),
        key,
        value,
        decimals,
    })
}

// A report of facts with `;` behind each.
fn report_of(alloc: Global, text: &str) -> Result<Report, Fail> {
    let mut facts = Vec::new(alloc);
    for fact in text.split_terminator(';') {
        facts.push(fact_of(alloc, fact)?)?;
    }
    Ok(Report {
        facts: Items::of(facts),
        keys: Items::of(Vec::new(alloc)),
    })
}

fn points_of(rt: &impl Abort, alloc: Global, facts: &str, mode: Mode) -> Result<Points, Fail> {
    let report = report_of(alloc, facts)?;
    assert!(rt; report.facts.as_slice().len() < MOST_FACTS);
    Ok(points(alloc, &report, mode)?)
}

fn push_end(alloc: Global, text: &mut String, end: End<Frac>) -> Result<(), Fail> {
    let value = end.value();
    text.push_str(&format!(in alloc; "{}/{}", value.num(), value.den())?)?;
    Ok(())
}

fn push_interval(alloc: Global, text: &mut String, interval: &Interval<Frac>) -> Result<(), Fail> {
    text.push_str(if interval.low.is_open() { "(" } else { "[" })?;
    push_end(alloc, text, interval.low)?;
    text.push_str(" ")?;
    push_end(alloc, text, interval.high)?;
    text.push_str(if interval.high.is_open() { ")" } else { "]" })?;
    Ok(())
}

fn push_range(alloc: Global, text: &mut String, range: &Range) -> Result<(), Fail> {
    match range {
        Range::Meets(interval) => push_interval(alloc, text, interval)?,
        Range::Empty => text.push_str("empty")?,
        Range::Wide => text.push_str("wide")?,
    }
    Ok(())
}

// `concept.key numbers range;`
fn push_point(alloc: Global, text: &mut String, point: &Point) -> Result<(), Fail> {
    text.push_str(&format!(in alloc; "{}.{}", point.concept.0, point.key)?)?;
    for fact in point.facts.as_slice() {
        text.push_str(&format!(in alloc; " {}", fact)?)?;
    }
    text.push_str(" ")?;
    push_range(alloc, text, &point.range)?;
    text.push_str(";")?;
    Ok(())
}

fn points_text(alloc: Global, points: &Points) -> Result<String, Fail> {
    let mut text = String::new(alloc);
    for point in points.as_slice() {
        push_point(alloc, &mut text, point)?;
    }
    Ok(text)
}

fn ends_text(alloc: Global, points: &Points) -> Result<String, Fail> {
    let mut text = String::new(alloc);
    for end in points.ends() {
        match end {
            Some(interval) => push_interval(alloc, &mut text, interval)?,
            None => text.push_str("wide")?,
        }
        text.push_str(";")?;
    }
    Ok(text)
}

const A_MANY: &str = "0 0 100000000000000000000000000000000000000000000 0;";

#[test]
fn points_of_facts(rt: HostRuntime) -> Result<(), Fail> {
    let alloc = rt.alloc();
    let (r, t) = (Mode::Rounding, Mode::Truncation);
    let cases = [
        // no facts
        (r, "", ""),
        // facts of one point that agree, and that do not
        (
            r,
            "0 0 50 0;0 0 50.4 1;1 0 50 inf;2 0 100.0 1;",
            "0.0 0 1 [1007/20 1009/20];1.0 2 [50/1 50/1];2.0 3 [1999/20 2001/20];",
        ),
        (
            r,
            "0 0 50 0;0 0 52 0;1 0 50 0;2 0 100 0;",
            "0.0 0 1 empty;1.0 2 [99/2 101/2];2.0 3 [199/2 201/2];",
        ),
        // one fact each
        (
            r,
            "0 0 50 0;1 0 50 0;2 0 100 0;",
            "0.0 0 [99/2 101/2];1.0 1 [99/2 101/2];2.0 2 [199/2 201/2];",
        ),
        (r, "2 0 100 inf;", "2.0 0 [100/1 100/1];"),
        // two concepts with one key, and with two
        (
            r,
            "0 0 100 0;1 0 100 0;",
            "0.0 0 [199/2 201/2];1.0 1 [199/2 201/2];",
        ),
        (
            r,
            "0 0 100 0;1 1 100 0;",
            "0.0 0 [199/2 201/2];1.1 1 [199/2 201/2];",
        ),
        // one concept with two keys; points come by first fact
        (
            r,
            "2 1 3 inf;0 0 4 inf;2 1 3 inf;2 0 5 inf;0 0 4 inf;1 0 6 inf;",
            "2.1 0 2 [3/1 3/1];0.0 1 4 [4/1 4/1];2.0 3 [5/1 5/1];1.0 5 [6/1 6/1];",
        ),
        // the third fact alone makes it empty
        (r, "0 0 50 0;0 0 50.4 1;", "0.0 0 1 [1007/20 1009/20];"),
        (r, "0 0 50 0;0 0 50.4 1;0 0 51 1;", "0.0 0 1 2 empty;"),
        // closed ends meet, open ones do not
        (r, "0 0 50 0;0 0 51 0;", "0.0 0 1 [101/2 101/2];"),
        (t, "0 0 50 0;0 0 51 0;", "0.0 0 1 empty;"),
        (t, "0 0 50 0;0 0 50.9 1;", "0.0 0 1 [509/10 51/1);"),
        // one exact value
        (r, "0 0 50 0;0 0 50.5 inf;", "0.0 0 1 [101/2 101/2];"),
        (r, "0 0 50 0;0 0 50.6 inf;", "0.0 0 1 empty;"),
        (t, "0 0 50 0;0 0 51 inf;", "0.0 0 1 empty;"),
        (t, "0 0 50 0;0 0 50 inf;", "0.0 0 1 [50/1 50/1];"),
        // around 0
        (t, "0 0 0 0;", "0.0 0 (-1/1 1/1);"),
        (t, "0 0 0 0;0 0 1 0;", "0.0 0 1 empty;"),
        (t, "0 0 0 0;0 0 -1 0;", "0.0 0 1 empty;"),
        (t, "0 0 0 1;0 0 0.05 1;", "0.0 0 1 [1/20 1/10);"),
        (t, "0 0 0 1;0 0 -0.05 1;", "0.0 0 1 (-1/10 -1/20];"),
        (t, "0 0 -0.05 1;0 0 0.05 1;", "0.0 0 1 empty;"),
        // a wide fact, first or last, beside facts that agree, or that do not
        (r, A_MANY, "0.0 0 wide;"),
        (r, "0 0 50 0;0 0 52 0;0 0 1 38;", "0.0 0 1 2 wide;"),
        (r, "0 0 1 38;0 0 50 0;0 0 50 0;", "0.0 0 1 2 wide;"),
        // from -37 to 37 decimals
        (
            r,
            "0 0 1 -37;",
            "0.0 0 [-4999999999999999999999999999999999999/1 5000000000000000000000000000000000001/1];",
        ),
        (
            t,
            "0 0 1 37;",
            "0.0 0 [1/1 10000000000000000000000000000000000001/10000000000000000000000000000000000000);",
        ),
        (r, "0 0 1 38;", "0.0 0 wide;"),
        (r, "0 0 1 -38;", "0.0 0 wide;"),
        (t, "0 0 1 -9223372036854775808;", "0.0 0 wide;"),
        (t, "0 0 0 4294967296;", "0.0 0 wide;"),
    ];
    for (mode, facts, text) in cases {
        let points = points_of(&rt, alloc, facts, mode)?;
        assert_eq!(rt; points_text(alloc, &points)?.as_str(), text, "{facts}");
    }
    Ok(())
}

#[test]
fn intervals_of_facts(rt: HostRuntime) -> Result<(), Fail> {
    let alloc = rt.alloc();
    let (r, t) = (Mode::Rounding, Mode::Truncation);
    let cases = [
        (
            r,
            "0 0 50 0;0 0 1 38;0 0 52 inf;",
            "[99/2 101/2];wide;[52/1 52/1];",
        ),
        // 2^126 and a half takes 128 bits over 2, and 2^126 and 1 does not
        (r, "0 0 85070591730234615865843651857942052864 0;", "wide;"),
        (
            t,
            "0 0 85070591730234615865843651857942052864 0;",
            "[85070591730234615865843651857942052864/1 85070591730234615865843651857942052865/1);",
        ),
    ];
    for (mode, facts, text) in cases {
        let points = points_of(&rt, alloc, facts, mode)?;
        assert_eq!(rt; ends_text(alloc, &points)?.as_str(), text, "{facts}");
    }
    Ok(())
}
