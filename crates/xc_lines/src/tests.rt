// The exact lines of findings, of refusals and of texts.
ghost use Rattle.std.specs.Prelude.{◌<◌, All};
ghost use Rattle.std.specs.Bool.{OnTrue};

use crate::laws::points_carry_facts;
use crate::{
    findings, placed_refusal_line, printed_text, read_fault_line, refusal_line, usage_line,
};
use std::alloc::Global;
use std::process::Abort;
use std::test::Fail;
use xc_bind::{Binding, Verdict};
use xc_calc::Network;
use xc_decimal::read_decimal;
use xc_interval::Mode;
use xc_lists::{Items, Text};
use xc_names::NameId;
use xc_points::points;
use xc_report::{Fact, Reading, Report};

// A fact that is written `id|concept|value`, with no digit behind the point; a value that is no number is wide.
fn fact_of(alloc: Global, fact: &str) -> Result<Fact, Fail> {
    let mut parts = fact.split('|');
    let id = String::from_str(alloc, parts.next().unwrap_or(""))?;
    let concept = parts.next().unwrap_or("").parse::<u64>().unwrap_or(0);
    let value = match read_decimal(parts.next().unwrap_or("")) {
        Ok(number) => Reading::Number(number),
        Err(_) => Reading::Wide,
    };
    Ok(Fact {
        id: Text::of(id),
        concept: NameId(concept),
        key: 0,
        value,
        decimals: Some(0),
    })
}

// A report of facts with `;` behind each.
fn report_of(alloc: Global, facts: &str) -> Result<Report, Fail> {
    let mut list = Vec::new(alloc);
    for fact in facts.split_terminator(';') {
        list.push(fact_of(alloc, fact)?)?;
    }
    Ok(Report {
        facts: Items::of(list),
        keys: Items::of(Vec::new(alloc)),
    })
}

// Networks of roles with `|` between them.
fn networks_of(alloc: Global, roles: &str) -> Result<Vec<Network>, Fail> {
    let mut networks = Vec::new(alloc);
    for role in roles.split('|') {
        networks.push(Network {
            role: Text::of(String::from_str(alloc, role)?),
            arcs: Items::of(Vec::new(alloc)),
        })?;
    }
    Ok(networks)
}

// Bindings that are written `network total verdict`, with `;` behind each.
fn bindings_of(alloc: Global, judged: &str) -> Result<Vec<Binding>, Fail> {
    let mut bindings = Vec::new(alloc);
    for binding in judged.split_terminator(';') {
        let mut words = binding.split(' ');
        bindings.push(Binding {
            network: words.next().unwrap_or("").parse::<u32>().unwrap_or(0),
            total: words.next().unwrap_or("").parse::<u32>().unwrap_or(0),
            terms: Items::of(Vec::new(alloc)),
        })?;
    }
    Ok(bindings)
}

// The verdicts of such bindings, by their first letters.
fn verdicts_of(alloc: Global, judged: &str) -> Result<Vec<Verdict>, Fail> {
    let mut verdicts = Vec::new(alloc);
    for binding in judged.split_terminator(';') {
        verdicts.push(match binding.split(' ').nth(2) {
            Some("consistent") => Verdict::Consistent,
            Some("inconsistent") => Verdict::Inconsistent,
            Some("unjudged") => Verdict::Unjudged,
            _ => Verdict::TooWide,
        })?;
    }
    Ok(verdicts)
}

// Whether each binding names one of so many networks, and one of so many points.
fn are_named(networks: usize, points: usize, bindings: &[Binding]) -> bool
    ensures networks { OnTrue result (All (λ binding. binding.network < networks) bindings.now) }
    ensures points { OnTrue result (All (λ binding. binding.total < points) bindings.now) }
{
    for binding in bindings {
        if binding.network as usize >= networks {
            return false;
        }
        if binding.total as usize >= points {
            return false;
        }
    }
    true
}

// Compares the findings over roles, facts and bindings with their verdicts.
fn expect(
    rt: &impl Abort,
    alloc: Global,
    mode: Mode,
    roles: &str,
    facts: &str,
    judged: &str,
    text: &str,
) -> Result<(), Fail> {
    let report = report_of(alloc, facts)?;
    assert!(rt; report.facts.as_slice().len() < 1 << 31);
    let points = points(alloc, &report, mode)?;
    points_carry_facts();
    let networks = networks_of(alloc, roles)?;
    let bindings = bindings_of(alloc, judged)?;
    let verdicts = verdicts_of(alloc, judged)?;
    assert!(rt; verdicts.len() == bindings.len());
    assert!(rt; are_named(networks.len(), points.as_slice().len(), &bindings));
    let lines = findings(
        alloc, &report, &points, &networks, &bindings, &verdicts, mode,
    )?;
    assert_eq!(rt; lines.as_slice(), text.as_bytes());
    Ok(())
}

const ROLES: &str = "|role 5%";

// Two facts that no value satisfies together, one with one value, and a wide one.
const FACTS: &str = "f 1|0|1;f 2|0|5;g|1|5;h|2|wide;";

const JUDGED: &str = "0 0 unjudged;0 2 too-wide;1 1 consistent;1 1 inconsistent;";

#[test]
fn lines_of_findings(rt: HostRuntime) -> Result<(), Fail> {
    let alloc = rt.alloc();
    for (mode, roles, facts, judged, text) in [
        (Mode::Rounding, "r", "", "", "bindings 0 points 0\n"),
        (
            Mode::Rounding,
            ROLES,
            FACTS,
            JUDGED,
            "bindings 4 points 3\nbinding 0 unjudged % f%201\nbinding 1 too-wide % h\nbinding 2 consistent role%205%25 g\nbinding 3 inconsistent role%205%25 g calc11e:inconsistentCalculationUsingRounding\npoint 0 empty f%201 xc:emptyDataPoint\n",
        ),
        (
            Mode::Truncation,
            ROLES,
            FACTS,
            JUDGED,
            "bindings 4 points 3\nbinding 0 unjudged % f%201\nbinding 1 too-wide % h\nbinding 2 consistent role%205%25 g\nbinding 3 inconsistent role%205%25 g calc11e:inconsistentCalculationUsingTruncation\npoint 0 empty f%201 xc:emptyDataPoint\n",
        ),
        // An id that is empty, a line feed, one with the delete character, and one of characters of two to four bytes.
        (
            Mode::Truncation,
            "http://example.com/r1",
            "|0|1;\n|1|1;a\u{7F}b|2|1;\u{E9}\u{20AC}\u{1F600}|3|1;\u{E9}\u{20AC}\u{1F600}~|3|5;",
            "0 0 consistent;0 1 consistent;0 2 consistent;0 3 unjudged;",
            "bindings 4 points 4\nbinding 0 consistent http://example.com/r1 %\nbinding 1 consistent http://example.com/r1 %0A\nbinding 2 consistent http://example.com/r1 a%7Fb\nbinding 3 unjudged http://example.com/r1 \u{E9}\u{20AC}\u{1F600}\npoint 3 empty \u{E9}\u{20AC}\u{1F600} xc:emptyDataPoint\n",
        ),
        // Numbers of two digits; the empty points are no totals.
        (
            Mode::Rounding,
            "r",
            "a|0|1;b|1|1;c|2|1;d|3|1;e|4|1;f|5|1;g|6|1;h|7|1;i|8|1;j|9|1;k|10|1;l|10|7;m|9|3;",
            "0 0 consistent;",
            "bindings 1 points 11\nbinding 0 consistent r a\npoint 9 empty j xc:emptyDataPoint\npoint 10 empty k xc:emptyDataPoint\n",
        ),
    ] {
        expect(&rt, alloc, mode, roles, facts, judged, text)?;
    }
    Ok(())
}

// Texts as they are printed, and the lines that are written in place of findings.
#[test]
fn lines_of_texts(rt: HostRuntime) -> Result<(), Fail> {
    let alloc = rt.alloc();
    for (text, word) in [
        ("", "%"),
        ("\0\t\n\r", "%00%09%0A%0D"),
        ("\u{1F} !", "%1F%20!"),
        ("100%", "100%25"),
        ("~\u{7F}\u{80}", "~%7F\u{80}"),
        ("\u{E9}\u{20AC}\u{1F600}", "\u{E9}\u{20AC}\u{1F600}"),
    ] {
        assert_eq!(rt; printed_text(alloc, text)?.as_str(), word);
    }
    assert_eq!(rt;
        usage_line(),
        "usage: xcalc sum MODE REPORT TOTAL TERM... | check [--old-arcs] MODE REPORT DOC... | verify [--old-arcs] MODE CERTIFICATE REPORT DOC... | sample N\n"
    );
    assert_eq!(rt;
        read_fault_line(alloc, "my file.json")?.as_str(),
        "read-fault my%20file.json\n"
    );
    assert_eq!(rt;
        refusal_line(alloc, "5%/r.json", "xc:notJson")?.as_str(),
        "refused 5%25/r.json xc:notJson\n"
    );
    assert_eq!(rt;
        placed_refusal_line(alloc, "c.xml", "xc:badWeight", "17")?.as_str(),
        "refused c.xml xc:badWeight 17\n"
    );
    assert_eq!(rt;
        placed_refusal_line(alloc, "r.json", "xc:badValue", "")?.as_str(),
        "refused r.json xc:badValue %\n"
    );
    Ok(())
}
