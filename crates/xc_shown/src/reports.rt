// Reports: their facts with the numbers of their keys, their keys, and what reports are refused for.
//
// The names T and A of the namespace u:t have the numbers 0 and 1 and are wanted, and D has the number
// 2 and is a typed dimension. `= report` reads the report of its text, and `= prefix P` does so too and
// asks what a prefix stands for.

use crate::cases::Part;
use std::alloc::{AllocError, Global};
use xc_lists::Items;
use xc_names::{NameId, Names, Wanted};
use xc_report::{DimValue, Dimension, Draft, Fact, Key, Reading, Report, ReportFault, open_report};

/// A line for each report, and behind it one for each fact and each key.
pub fn show(alloc: Global, parts: &[Part]) -> Result<String, AllocError> {
    let mut out = String::new(alloc);
    for part in parts {
        show_part(alloc, &mut out, part)?;
    }
    Ok(out)
}

fn show_part(alloc: Global, out: &mut String, part: &Part) -> Result<(), AllocError> {
    let words = part.words.as_str();
    let text = part.text.as_str();
    if words.strip_prefix("case ").is_some() {
        out.push_str(words)?;
        return out.push_str("\n");
    }
    if let Some(prefix) = words.strip_prefix("prefix ") {
        return show_prefix(alloc, out, text, prefix);
    }
    if words == "report" {
        return show_report(alloc, out, text);
    }
    Ok(())
}

fn show_prefix(
    alloc: Global,
    out: &mut String,
    text: &str,
    prefix: &str,
) -> Result<(), AllocError> {
    let Ok(draft) = open_report(alloc, text.as_bytes()) else {
        return out.push_str("no report\n");
    };
    let stands = draft.prefixes().get(prefix).unwrap_or("nothing");
    for piece in ["prefix ", prefix, " ", stands, "\n"] {
        out.push_str(piece)?;
    }
    Ok(())
}

fn show_report(alloc: Global, out: &mut String, text: &str) -> Result<(), AllocError> {
    match read(alloc, text) {
        Ok(report) => show_facts(alloc, out, &report),
        Err(fault) => show_fault(out, &fault),
    }
}

fn read(alloc: Global, text: &str) -> Result<Report, ReportFault> {
    let draft: Draft = open_report(alloc, text.as_bytes())?;
    let mut names = Names::new(alloc);
    let mut nodes = Vec::new(alloc);
    nodes.push(names.number("u:t", "T")?)?;
    nodes.push(names.number("u:t", "A")?)?;
    let mut typed = Vec::new(alloc);
    typed.push(names.number("u:t", "D")?)?;
    let wanted = Wanted {
        nodes: Items::of(nodes),
        typed: Items::of(typed),
    };
    draft.facts(&mut names, &wanted)
}

fn show_fault(out: &mut String, fault: &ReportFault) -> Result<(), AllocError> {
    out.push_str("report refused ")?;
    out.push_str(fault.code().unwrap_or("no memory"))?;
    if let Some(place) = fault.place() {
        out.push_str(" ")?;
        out.push_str(place)?;
    }
    out.push_str("\n")
}

fn show_facts(alloc: Global, out: &mut String, report: &Report) -> Result<(), AllocError> {
    out.push_str("report read\n")?;
    for fact in report.facts.as_slice() {
        show_fact(alloc, out, fact)?;
    }
    show_keys(alloc, out, report.keys.as_slice())
}

fn show_fact(alloc: Global, out: &mut String, fact: &Fact) -> Result<(), AllocError> {
    out.push_str("fact ")?;
    out.push_str(fact.id.as_str())?;
    out.push_str(format!(in alloc;
        " concept {} key {} value ",
        fact.concept.0, fact.key
    )?.as_str())?;
    show_reading(alloc, out, fact.value)?;
    match fact.decimals {
        Some(decimals) => out.push_str(format!(in alloc; " decimals {decimals}\n")?.as_str()),
        None => out.push_str(" decimals none\n"),
    }
}

fn show_reading(alloc: Global, out: &mut String, reading: Reading) -> Result<(), AllocError> {
    match reading {
        Reading::Number(number) => {
            out.push_str(format!(in alloc; "{}/{}", number.digits(), number.places())?.as_str())
        }
        Reading::Wide => out.push_str("wide"),
    }
}

fn show_keys(alloc: Global, out: &mut String, keys: &[Key]) -> Result<(), AllocError> {
    for (number, key) in keys.iter().enumerate() {
        out.push_str(format!(in alloc; "key {number}")?.as_str())?;
        show_key(alloc, out, key)?;
    }
    Ok(())
}

fn show_key(alloc: Global, out: &mut String, key: &Key) -> Result<(), AllocError> {
    for part in key.as_slice() {
        out.push_str(" ")?;
        show_dimension(alloc, out, part.0)?;
        show_value(alloc, out, &part.1)?;
    }
    out.push_str("\n")
}

fn show_dimension(alloc: Global, out: &mut String, dimension: Dimension) -> Result<(), AllocError> {
    match dimension {
        Dimension::Entity => out.push_str("entity"),
        Dimension::Period => out.push_str("period"),
        Dimension::Unit => out.push_str("unit"),
        Dimension::Language => out.push_str("language"),
        Dimension::NoteId => out.push_str("noteId"),
        Dimension::Taxonomy(id) => out.push_str(format!(in alloc; "{}:", id.0)?.as_str()),
    }
}

// A value: a pair in parentheses, a text in angles, a name behind `=`, and each measure behind `*`.
fn show_value(alloc: Global, out: &mut String, value: &DimValue) -> Result<(), AllocError> {
    match value {
        DimValue::Pair(scheme, identifier) => {
            push_all(out, "(", scheme.as_str(), "|", identifier.as_str())?;
            out.push_str(")")
        }
        DimValue::Text(text) => push_all(out, "<", text.as_str(), ">", ""),
        DimValue::Name(id) => out.push_str(format!(in alloc; "={}", id.0)?.as_str()),
        DimValue::Null => out.push_str("null"),
        DimValue::Measures(above, below) => {
            show_measures(alloc, out, above.as_slice())?;
            out.push_str("/")?;
            show_measures(alloc, out, below.as_slice())
        }
    }
}

fn push_all(
    out: &mut String,
    one: &str,
    two: &str,
    three: &str,
    four: &str,
) -> Result<(), AllocError> {
    out.push_str(one)?;
    out.push_str(two)?;
    out.push_str(three)?;
    out.push_str(four)
}

fn show_measures(alloc: Global, out: &mut String, ids: &[NameId]) -> Result<(), AllocError> {
    for id in ids {
        out.push_str(format!(in alloc; "*{}", id.0)?.as_str())?;
    }
    Ok(())
}
