// Bindings of small reports. A concept is a letter; a fact is a letter and the digit of its key.
use crate::{Binding, bindings, system};
use std::alloc::Global;
use std::test::Fail;
use xc_calc::{Arc, Network};
use xc_decimal::read_decimal;
use xc_interval::Mode;
use xc_lists::{Items, Memory, Text};
use xc_names::NameId;
use xc_points::points;
use xc_report::{Fact, Reading, Report};
use xc_system::System;

fn concept(letter: u8) -> NameId {
    NameId(letter as u64)
}

// An arc between two concepts with this weight.
fn arc_with(from: u8, to: u8, weight: &str) -> Option<Arc> {
    match read_decimal(weight) {
        Ok(weight) => Some(Arc {
            from: concept(from),
            to: concept(to),
            weight,
        }),
        Err(_) => None,
    }
}

// An arc is the letters of its total and its contributor, with a `-` where its weight is -1 and not 1.
fn arc_of(word: &str) -> Option<Arc> {
    match word.as_bytes() {
        [from, to] => arc_with(*from, *to, "1"),
        [from, to, _] => arc_with(*from, *to, "-1"),
        _ => None,
    }
}

fn network_of(alloc: Global, role: &str, words: &str) -> Result<Network, Memory> {
    let mut arcs = Vec::new(alloc);
    for word in words.split(' ') {
        if let Some(arc) = arc_of(word) {
            arcs.push(arc)?;
        }
    }
    Ok(Network {
        role: Text::of(String::from_str(alloc, role)?),
        arcs: Items::of(arcs),
    })
}

// Networks are roles with their arcs.
fn networks_of(alloc: Global, text: &str) -> Result<Vec<Network>, Memory> {
    let mut networks = Vec::new(alloc);
    for part in text.split(';') {
        if let Some((role, words)) = part.split_once(':') {
            networks.push(network_of(alloc, role, words)?)?;
        }
    }
    Ok(networks)
}

// The fact of this concept with this key, which reports the number 1.
fn fact_of(alloc: Global, id: &str, letter: u8, key: u8) -> Result<Fact, Memory> {
    let value = match read_decimal("1") {
        Ok(number) => Reading::Number(number),
        Err(_) => Reading::Wide,
    };
    Ok(Fact {
        id: Text::of(String::from_str(alloc, id)?),
        concept: concept(letter),
        key: key as u64,
        value,
        decimals: Some(0),
    })
}

fn report_of(alloc: Global, text: &str) -> Result<Report, Memory> {
    let mut facts = Vec::new(alloc);
    for word in text.split(' ') {
        if let [letter, key] = word.as_bytes() {
            facts.push(fact_of(alloc, word, *letter, *key)?)?;
        }
    }
    Ok(Report {
        facts: Items::of(facts),
        keys: Items::of(Vec::new(alloc)),
    })
}

// Each binding as the numbers of its network and its total, and its terms as digits of the weight and number.
fn spelling_of(alloc: Global, list: &[Binding]) -> Result<String, Memory> {
    let mut text = String::new(alloc);
    for binding in list {
        let network = binding.network;
        let total = binding.total;
        text.push_str(format!(in alloc; "{network}.{total}")?.as_str())?;
        for term in binding.terms.as_slice() {
            let weight = term.weight.digits();
            let point = term.point;
            text.push_str(format!(in alloc; " {weight}*{point}")?.as_str())?;
        }
        text.push_str(";")?;
    }
    Ok(text)
}

// The points of the bounds of a system, and each equation as its entries, each of a weight and a point.
fn spelling_of_system(alloc: Global, system: &System) -> Result<String, Memory> {
    let mut text = String::from_str(alloc, "|")?;
    for bound in system.bounds() {
        let point = bound.point;
        text.push_str(format!(in alloc; " {point}")?.as_str())?;
    }
    for equation in system.equations() {
        text.push_str(";")?;
        for entry in equation.entries.as_slice() {
            let weight = entry.weight.num();
            let point = entry.point;
            text.push_str(format!(in alloc; " {weight}*{point}")?.as_str())?;
        }
    }
    Ok(text)
}

// The bindings of these networks and facts, and their system. Too many of them count as want of memory.
fn answer_for(alloc: Global, networks: &str, facts: &str) -> Result<String, Memory> {
    let networks = networks_of(alloc, networks)?;
    let report = report_of(alloc, facts)?;
    if report.facts.as_slice().len() > 100 {
        return Err(Memory);
    }
    let points = points(alloc, &report, Mode::Rounding)?;
    let Some(count) = networks.len().checked_mul(points.as_slice().len()) else {
        return Err(Memory);
    };
    if count > 100 {
        return Err(Memory);
    }
    let list = bindings(alloc, networks.as_slice(), &points)?;
    if list.len() > 100 || points.ends().len() > 100 {
        return Err(Memory);
    }
    let system = system(alloc, &points, list.as_slice())?;
    let mut text = spelling_of(alloc, list.as_slice())?;
    text.push_str(spelling_of_system(alloc, &system)?.as_str())?;
    Ok(text)
}

#[test]
fn worked_reports(rt: HostRuntime) -> Result<(), Fail> {
    let alloc = rt.alloc();
    for (networks, facts, answer) in [
        ("", "A0 T0", "| 0 1"),
        ("r1:TA", "", "|"),
        // two totals with the same contributors
        (
            "r1:TA TB;r2:UA UB",
            "A0 B0 T0 U0",
            "0.2 1*0 1*1;1.3 1*0 1*1;| 0 1 2 3; 1*2 -1*0 -1*1; 1*3 -1*0 -1*1",
        ),
        // one arc of two is effective, and both are
        ("r1:TA", "A0 B0 T0", "0.2 1*0;| 0 1 2; 1*2 -1*0"),
        ("r1:TA TB", "A0 B0 T0", "0.2 1*0 1*1;| 0 1 2; 1*2 -1*0 -1*1"),
        // no contributor is reported
        ("r1:TA TB", "T0", "| 0"),
        // one key, and two
        ("sum:TA", "A0 T0", "0.1 1*0;| 0 1; 1*1 -1*0"),
        ("sum:TA", "A0 T1", "| 0 1"),
        // two arcs to one contributor
        ("r1:TA TA-", "A0 T0", "0.1 1*0 -1*0;| 0 1; 1*1 -1*0 1*0"),
        ("r1:TA TA", "A0 T0", "0.1 1*0 1*0;| 0 1; 1*1 -1*0 -1*0"),
        // a balance sheet of three periods, in the last of which one contributor is missing
        (
            "r1:TC TR TI",
            "T0 C0 R0 I0 T1 C1 R1 I1 T2 C2 R2",
            "0.0 1*1 1*2 1*3;0.4 1*5 1*6 1*7;0.8 1*9 1*10;| 0 1 2 3 4 5 6 7 8 9 10; 1*0 -1*1 -1*2 -1*3; 1*4 -1*5 -1*6 -1*7; 1*8 -1*9 -1*10",
        ),
        // a total that is its own contributor
        ("r1:TT", "T0", "0.0 1*0;| 0; 1*0 -1*0"),
        // one total in two networks
        (
            "r1:TA;r2:TB",
            "A0 B0 T0",
            "0.2 1*0;1.2 1*1;| 0 1 2; 1*2 -1*0; 1*2 -1*1",
        ),
        // a contributor reported in one of three periods
        (
            "r1:TA TB",
            "T0 T1 T2 A0 A1 A2 B1",
            "0.0 1*3;0.1 1*4 1*6;0.2 1*5;| 0 1 2 3 4 5 6; 1*0 -1*3; 1*1 -1*4 -1*6; 1*2 -1*5",
        ),
        // a contributor that is nowhere reported
        ("r1:TA TC", "A0 T0", "0.1 1*0;| 0 1; 1*1 -1*0"),
        // terms go by arc, and totals by their numbers
        ("r1:TB TA", "A0 B0 T0", "0.2 1*1 1*0;| 0 1 2; 1*2 -1*1 -1*0"),
        (
            "r1:TA ST",
            "A0 S0 T0",
            "0.1 1*2;0.2 1*0;| 0 1 2; 1*1 -1*2; 1*2 -1*0",
        ),
        // two facts of one point
        ("r1:TA", "A0 A0 T0 T0", "0.1 1*0;| 0 0 1 1; 1*1 -1*0"),
    ] {
        assert_eq!(rt; answer_for(alloc, networks, facts)?.as_str(), answer);
    }
    Ok(())
}
