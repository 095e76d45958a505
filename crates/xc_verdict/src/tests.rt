// Verdicts on bindings that are written out. Facts are written `concept value decimals` with `;` behind each, the
// last word being no number where the fact is exact; points are numbered by their first facts. Terms are written
// `point weight` with `;` behind each.
ghost use Rattle.std.specs.Prelude.{All, IsTrue, ◌<◌};
ghost use Rattle.xc_bind.specs.declared.types.Term.{Term};

use crate::{laws, verdict};
use std::alloc::Global;
use std::process::Abort;
use std::test::Fail;
use xc_bind::{Binding, Term, Verdict};
use xc_decimal::read_decimal;
use xc_interval::Mode;
use xc_lists::{Items, Text};
use xc_names::NameId;
use xc_points::{Points, points};
use xc_report::{Fact, Reading, Report};

const ROUNDING: Mode = Mode::Rounding;

const TRUNCATION: Mode = Mode::Truncation;

// The numbers of fewer facts than these are numbers of facts.
const MOST_FACTS: usize = 2_147_483_648;

// A, B and T to the unit.
const FACTS: &str = "0 50 0;1 50 0;2 100 0;";

// 2^125, and one less.
const SAME: &str =
    "0 42535295865117307932921825928971026432 -;1 42535295865117307932921825928971026432 -;";

const NEAR: &str =
    "0 42535295865117307932921825928971026431 -;1 42535295865117307932921825928971026432 -;";

const LESS: &str =
    "0 42535295865117307932921825928971026431 -;1 42535295865117307932921825928971026431 -;";

const FINE: &str = "0 1.0000000000000000000000000000001;";

fn reading_of(text: &str) -> Reading {
    match read_decimal(text) {
        Ok(number) => Reading::Number(number),
        Err(_) => Reading::Wide,
    }
}

fn fact_of(alloc: Global, fact: &str) -> Result<Fact, Fail> {
    let mut words = fact.split(' ');
    let concept = words.next().unwrap_or("").parse::<u64>().unwrap_or(0);
    let value = reading_of(words.next().unwrap_or(""));
    let decimals = words.next().unwrap_or("").parse::<i64>().ok();
    Ok(Fact {
        id: Text::of(String::from_str(alloc, fact)?),
        concept: NameId(concept),
        key: 0,
        value,
        decimals,
    })
}

fn points_of(rt: &impl Abort, alloc: Global, text: &str, mode: Mode) -> Result<Points, Fail> {
    let mut facts = Vec::new(alloc);
    for fact in text.split_terminator(';') {
        facts.push(fact_of(alloc, fact)?)?;
    }
    let report = Report {
        facts: Items::of(facts),
        keys: Items::of(Vec::new(alloc)),
    };
    assert!(rt; report.facts.as_slice().len() < MOST_FACTS);
    Ok(points(alloc, &report, mode)?)
}

fn terms_of(alloc: Global, text: &str) -> Result<Items<Term>, Fail> {
    let mut terms = Vec::new(alloc);
    for term in text.split_terminator(';') {
        let mut words = term.split(' ');
        let point = words.next().unwrap_or("").parse::<u32>().unwrap_or(0);
        let Ok(weight) = read_decimal(words.next().unwrap_or("")) else {
            return Err(Fail::from("a weight is no decimal number"));
        };
        terms.push(Term { point, weight })?;
    }
    Ok(Items::of(terms))
}

fn are_inside(terms: &[Term], count: usize) -> bool
    ensures { IsTrue result → All (λ (term : Term). term.point < count) terms.now }
{
    for term in terms {
        if term.point as usize >= count {
            return false;
        }
    }
    true
}

fn verdict_of(
    rt: &impl Abort,
    alloc: Global,
    mode: Mode,
    facts: &str,
    total: u32,
    terms: &str,
) -> Result<Verdict, Fail> {
    let points = points_of(rt, alloc, facts, mode)?;
    let terms = terms_of(alloc, terms)?;
    let count = points.as_slice().len();
    assert!(rt; (total as usize) < count);
    assert!(rt; are_inside(terms.as_slice(), count));
    let binding = Binding {
        network: 0,
        total,
        terms,
    };
    Ok(verdict(&binding, &points))
}

#[test]
fn verdicts(rt: HostRuntime) -> Result<(), Fail> {
    let (yes, no) = (Verdict::Consistent, Verdict::Inconsistent);
    let (unjudged, wide) = (Verdict::Unjudged, Verdict::TooWide);
    for (mode, facts, total, terms, want) in [
        // ranges that meet, touch, and are apart
        (ROUNDING, FACTS, 2, "0 1;1 1;", yes),
        (ROUNDING, "0 50 0;1 50 0;2 101.5 0;", 2, "0 1;1 1;", yes),
        (ROUNDING, "0 50 0;1 50 0;2 102 0;", 2, "0 1;1 1;", no),
        (ROUNDING, "0 50 0;1 50 0;2 99 0;", 2, "0 1;1 1;", yes),
        (ROUNDING, "0 50 0;1 50 0;2 101 0;", 2, "0 1;1 1;", yes),
        // a contributor less
        (ROUNDING, FACTS, 2, "0 1;", no),
        // open ends that touch
        (TRUNCATION, "0 50 0;1 50 0;2 102 0;", 2, "0 1;1 1;", no),
        (TRUNCATION, "0 50 0;1 51 0;", 1, "0 1;", no),
        (TRUNCATION, "0 -50 0;1 -51 0;", 1, "0 1;", no),
        (TRUNCATION, "0 50 0;1 -51 0;", 1, "0 -1;", no),
        (TRUNCATION, "0 50 0;1 -50 0;", 1, "0 -1;", yes),
        (ROUNDING, "0 1 0;1 0 0;", 1, "0 1;", yes),
        (TRUNCATION, "0 1 0;1 0 0;", 1, "0 1;", no),
        // a point of two facts, which allow little together, or nothing
        (
            ROUNDING,
            "0 50 0;0 50.4 1;1 50 -;2 100.0 1;",
            2,
            "0 1;1 1;",
            no,
        ),
        (
            ROUNDING,
            "0 50 0;0 52 0;1 50 0;2 100 0;",
            2,
            "0 1;1 1;",
            unjudged,
        ),
        (
            ROUNDING,
            "0 50 0;1 50 0;2 100 0;2 102 0;",
            2,
            "0 1;1 1;",
            unjudged,
        ),
        // two terms of one point have two values
        (ROUNDING, "0 50 0;1 1 0;", 1, "0 1;0 -1;", yes),
        (ROUNDING, "0 50 0;1 2 0;", 1, "0 1;0 -1;", no),
        // weights
        (ROUNDING, "0 50 -;1 5 -;", 1, "0 0.1;", yes),
        (ROUNDING, "0 50 0;1 5 2;", 1, "0 0.1;", yes),
        (ROUNDING, "0 50 0;1 5.07 2;", 1, "0 0.1;", no),
        (ROUNDING, "0 50 0;1 -99 -;", 1, "0 -2;", yes),
        (ROUNDING, "0 50 0;1 -98 -;", 1, "0 -2;", no),
        (ROUNDING, "0 50 0;1 0 -;", 1, "0 0;", yes),
        (ROUNDING, "0 50 0;1 1 -;", 1, "0 0;", no),
        (ROUNDING, "0 1 -;1 1 0;", 1, FINE, yes),
        (ROUNDING, "0 1 -;1 1 -;", 1, FINE, no),
        (
            ROUNDING,
            "0 1 0;1 0 0;2 1 -;3 0 -;",
            2,
            "0 1;1 0.000000000000000000000000000001;",
            yes,
        ),
        (
            ROUNDING,
            "0 1 0;1 0 0;2 1 -;3 0 -;",
            3,
            "0 0.000000000000000000000000000001;1 1;",
            yes,
        ),
        // widths: 1 + 2^125 + 2^125, and less
        (ROUNDING, SAME, 1, "0 1;", wide),
        (ROUNDING, NEAR, 1, "0 1;", no),
        (ROUNDING, LESS, 1, "0 1;", yes),
        // narrow but for the places of the weight, or of the total
        (
            ROUNDING,
            "0 10000000000000000000000000000000000000 -;1 1 -;",
            1,
            "0 1.01;",
            wide,
        ),
        (
            ROUNDING,
            "0 1 -;1 1.0000000000000000000000000000001 -;",
            1,
            FINE,
            wide,
        ),
        // wide facts go before empty points, and these before the width
        (
            ROUNDING,
            "0 100000000000000000000000000000000000000000000 0;1 1 0;",
            1,
            "0 1;",
            wide,
        ),
        (ROUNDING, "0 50 38;1 50 0;", 1, "0 1;", wide),
        (
            ROUNDING,
            "0 100000000000000000000000000000000000000000000 0;1 50 0;1 52 0;2 1 0;",
            2,
            "0 1;1 1;",
            wide,
        ),
        (
            ROUNDING,
            "0 50 0;0 52 0;1 100000000000000000000000000000000000000000000 0;",
            1,
            "0 1;",
            wide,
        ),
        (
            ROUNDING,
            "0 42535295865117307932921825928971026432 -;1 1 0;1 3 0;",
            0,
            "0 1;1 1;",
            unjudged,
        ),
        // a filing of three periods
        (
            ROUNDING,
            "0 400000 -3;1 600000 -3;2 500000 -3;3 1500000 -3;",
            3,
            "0 1.0;1 1.0;2 1.0;",
            yes,
        ),
        (
            ROUNDING,
            "0 412000 -3;1 650000 -3;2 549000 -3;3 1612000 -3;",
            3,
            "0 1.0;1 1.0;2 1.0;",
            yes,
        ),
        (
            ROUNDING,
            "0 600.10 2;1 400.20 2;2 1000.25 2;",
            2,
            "0 1.0;1 1.0;",
            no,
        ),
    ] {
        let told = verdict_of(&rt, rt.alloc(), mode, facts, total, terms)?;
        assert_eq!(rt; told, want, "{facts} {total} {terms}");
    }
    laws::one_verdict();
    Ok(())
}
