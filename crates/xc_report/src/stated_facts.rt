// What one fact of a report states, by expanded names, or its fault.
ghost use Rattle.std.specs.Prelude.{◌≡◌, option_map};
ghost use Rattle.serde_json.specs.View.{view};
ghost use Rattle.xc_names.specs.Names.{lent_name};
ghost use Rattle.xc_report.specs.Steps.{Reads, Tells, known_view};
ghost use Rattle.xc_report.specs.StatedFacts.{concept_text, concept_of, null_or_text, value_of, fact_parts, value_read, read_of, decimals_of, whole_or_none, stated_fact, with_node, with_value, with_parts, with_reading, with_decimals};
ghost use Rattle.xc_report.specs.declared.reports.ReportFault.TheVariants as ReportFault;

use crate::known::Known;
use crate::prefixed::expanded_name;
use crate::reports::{Reading, ReportFault};
use crate::stated::{Refusal, StatedFact, StatedPart};
use crate::stated_parts::parts_of;
use serde_json::Value;
use std::alloc::Global;
use xc_chars::trimmed;
use xc_decimal::{DecimalFault, read_decimal};
use xc_lists::{Items, Text};
use xc_names::{NameId, Prefixes};

/// What a member of `facts` states, or its fault; nothing where its concept is no node or its value is
/// null.
pub fn stated_fact(
    alloc: Global,
    known: &Known<'_>,
    id: &str,
    fact: &Value,
) -> Result<Option<StatedFact>, ReportFault>
    ensures { Tells result (stated_fact (known_view known.now) (id.now, view fact.now)) }
{
    let Some((space, local)) = concept_of(known.prefixes, fact) else {
        return Err(bad_name(alloc, id));
    };
    match known.node_of(space, local) {
        Some(concept) => with_value(alloc, known, id, fact, concept),
        None => Ok(None),
    }
}

fn with_value(
    alloc: Global,
    known: &Known<'_>,
    id: &str,
    fact: &Value,
    concept: NameId,
) -> Result<Option<StatedFact>, ReportFault>
    ensures { Tells result (with_value (known_view known.now) id.now (view fact.now) concept (value_of (view fact.now))) }
{
    match value_of(fact) {
        Some(Some(text)) => with_parts(alloc, known, id, fact, concept, text),
        Some(None) => Ok(None),
        None => Err(bad_value(alloc, id)),
    }
}

fn with_parts(
    alloc: Global,
    known: &Known<'_>,
    id: &str,
    fact: &Value,
    concept: NameId,
    text: &str,
) -> Result<Option<StatedFact>, ReportFault>
    ensures { Tells result (with_parts id.now (view fact.now) concept text.now (fact_parts (known_view known.now) (view fact.now))) }
{
    match fact_parts(alloc, known, fact) {
        Ok(parts) => with_reading(alloc, id, fact, concept, parts, text),
        Err(Refusal::Bad) => Err(bad_name(alloc, id)),
        Err(Refusal::Memory) => Err(ReportFault::Memory),
    }
}

fn with_reading(
    alloc: Global,
    id: &str,
    fact: &Value,
    concept: NameId,
    parts: Items<StatedPart>,
    text: &str,
) -> Result<Option<StatedFact>, ReportFault>
    ensures { Tells result (with_reading id.now (view fact.now) concept parts (value_read text.now)) }
{
    let Some(value) = value_read(text) else {
        return Err(bad_value(alloc, id));
    };
    let Some(decimals) = decimals_of(fact) else {
        return Err(bad_decimals(alloc, id));
    };
    match String::from_str(alloc, id) {
        Ok(id) => Ok(Some(StatedFact {
            id: Text::of(id),
            concept,
            parts,
            value,
            decimals,
        })),
        Err(_) => Err(ReportFault::Memory),
    }
}

fn concept_of<'a>(prefixes: &'a Prefixes, fact: &'a Value) -> Option<(&'a str, &'a str)>
    ensures { option_map lent_name result ≡ concept_of prefixes.now (view fact.now) }
{
    match concept_text(fact) {
        Some(text) => expanded_name(prefixes, text),
        None => None,
    }
}

fn concept_text(fact: &Value) -> Option<&str>
    ensures { option_map (λ text. text.now) result ≡ concept_text (view fact.now) }
{
    let Some(dimensions) = fact.get("dimensions") else {
        return None;
    };
    dimensions.get("concept").and_then(Value::as_str)
}

fn value_of(fact: &Value) -> Option<Option<&str>>
    ensures { option_map (option_map (λ text. text.now)) result ≡ value_of (view fact.now) }
{
    match fact.get("value") {
        Some(value) => null_or_text(value),
        None => None,
    }
}

fn null_or_text(value: &Value) -> Option<Option<&str>>
    ensures { option_map (option_map (λ text. text.now)) result ≡ null_or_text (view value.now) }
{
    if value.as_null().is_some() {
        return Some(None);
    }
    match value.as_str() {
        Some(text) => Some(Some(text)),
        None => None,
    }
}

fn fact_parts(alloc: Global, known: &Known<'_>, fact: &Value) -> Result<Items<StatedPart>, Refusal>
    ensures { Reads result (fact_parts (known_view known.now) (view fact.now)) }
{
    let Some(dimensions) = fact.get("dimensions") else {
        return Err(Refusal::Bad);
    };
    match dimensions.as_object() {
        Some(members) => parts_of(alloc, known, members),
        None => Err(Refusal::Bad),
    }
}

fn value_read(text: &str) -> Option<Reading>
    ensures { result ≡ value_read text.now }
{
    match read_decimal(trimmed(text)) {
        Ok(number) => Some(Reading::Number(number)),
        Err(DecimalFault::Wide) => Some(Reading::Wide),
        Err(DecimalFault::NotDecimal) => None,
    }
}

fn decimals_of(fact: &Value) -> Option<Option<i64>>
    ensures { result ≡ decimals_of (view fact.now) }
{
    match fact.get("decimals") {
        Some(decimals) => match decimals.as_i64() {
            Some(decimals) => Some(Some(decimals)),
            None => None,
        },
        None => Some(None),
    }
}

fn bad_name(alloc: Global, id: &str) -> ReportFault
    ensures { ¬ (result ≡ ReportFault.Memory) → result ≡ ReportFault.BadName id.now }
{
    match String::from_str(alloc, id) {
        Ok(id) => ReportFault::BadName(Text::of(id)),
        Err(_) => ReportFault::Memory,
    }
}

fn bad_value(alloc: Global, id: &str) -> ReportFault
    ensures { ¬ (result ≡ ReportFault.Memory) → result ≡ ReportFault.BadValue id.now }
{
    match String::from_str(alloc, id) {
        Ok(id) => ReportFault::BadValue(Text::of(id)),
        Err(_) => ReportFault::Memory,
    }
}

fn bad_decimals(alloc: Global, id: &str) -> ReportFault
    ensures { ¬ (result ≡ ReportFault.Memory) → result ≡ ReportFault.BadDecimals id.now }
{
    match String::from_str(alloc, id) {
        Ok(id) => ReportFault::BadDecimals(Text::of(id)),
        Err(_) => ReportFault::Memory,
    }
}
