// The dimensions that a fact states, by expanded names.
ghost use Rattle.std.specs.Prelude.{◌≡◌, IfOk, Option};
ghost use Rattle.serde_json.specs.View.{view, members_view};
ghost use Rattle.xc_report.specs.Prefixed.{expanded_name};
ghost use Rattle.xc_report.specs.Steps.{Reads, GivesParts, known_view};
ghost use Rattle.xc_report.specs.Stated.{part, entity_value, period_value, text_value, member_value, taxonomy_value, taxonomy_part, unit_part, part_of, parts_of, part_with};
ghost use Rattle.xc_report.specs.declared.stated.StatedValue.{StatedValue};
ghost use Rattle.xc_report.specs.declared.stated.StatedValue.TheVariants as stated;

use crate::doubles::has_twice;
use crate::known::Known;
use crate::periods::normal_period;
use crate::prefixed::{expanded_loosely, expanded_name};
use crate::stated::{DimensionName, Refusal, StatedPart, StatedValue};
use crate::units::{is_pure_alone, unit};
use serde_json::{Map, Value};
use std::alloc::Global;
use xc_lists::{Items, Memory, Text};
use xc_names::{Expanded, Prefixes};

/// The parts of a fact's key, in the order of their names; `Bad` where a member is no dimension that a
/// fact may have, or where two are one dimension.
pub fn parts_of(
    alloc: Global,
    known: &Known<'_>,
    members: &Map<String, Value>,
) -> Result<Items<StatedPart>, Refusal>
    ensures { Reads result (parts_of (known_view known.now) (members_view members.now.entries)) }
{
    let parts = given_parts(alloc, known, members)?;
    if has_twice(alloc, parts.as_slice())? {
        return Err(Refusal::Bad);
    }
    Ok(Items::of(parts))
}

fn given_parts(
    alloc: Global,
    known: &Known<'_>,
    members: &Map<String, Value>,
) -> Result<Vec<StatedPart>, Refusal>
    ensures { GivesParts result (known_view known.now) (members_view members.now.entries) }
{
    let mut parts = Vec::new(alloc);
    for (name, value) in members {
        if let Some(part) = part_of(alloc, known, name.as_str(), value)? {
            parts.push(part)?;
        }
    }
    Ok(parts)
}

// The part that a member of `dimensions` gives: none for the concept, and for the unit `pure`.
fn part_of(
    alloc: Global,
    known: &Known<'_>,
    name: &str,
    value: &Value,
) -> Result<Option<StatedPart>, Refusal>
    ensures { Reads result (part_of (known_view known.now) (name.now, view value.now)) }
{
    if name == "concept" {
        Ok(None)
    } else if name == "entity" {
        part_with(
            DimensionName::Entity,
            entity_value(alloc, known.prefixes, value),
        )
    } else if name == "period" {
        part_with(DimensionName::Period, period_value(alloc, value))
    } else if name == "unit" {
        unit_part(alloc, known.prefixes, value)
    } else if name == "language" {
        part_with(DimensionName::Language, text_value(alloc, value))
    } else if name == "noteId" {
        part_with(DimensionName::NoteId, text_value(alloc, value))
    } else {
        taxonomy_part(alloc, known, name, value)
    }
}

fn part_with(
    dimension: DimensionName,
    value: Result<StatedValue, Refusal>,
) -> Result<Option<StatedPart>, Refusal>
    ensures { (answer : Option StatedValue) → Reads value answer → Reads result (part_with dimension answer) }
{
    match value {
        Ok(value) => Ok(Some(StatedPart { dimension, value })),
        Err(refusal) => Err(refusal),
    }
}

fn entity_value(alloc: Global, prefixes: &Prefixes, value: &Value) -> Result<StatedValue, Refusal>
    ensures { Reads result (entity_value prefixes.now (view value.now)) }
{
    let Some(text) = value.as_str() else {
        return Err(Refusal::Bad);
    };
    match expanded_loosely(prefixes, text) {
        Some((scheme, identifier)) => Ok(pair(alloc, scheme, identifier)?),
        None => Err(Refusal::Bad),
    }
}

fn pair(alloc: Global, scheme: &str, identifier: &str) -> Result<StatedValue, Memory>
    ensures { IfOk result (λ value. value ≡ stated.Pair scheme.now identifier.now) }
{
    Ok(StatedValue::Pair(
        Text::of(String::from_str(alloc, scheme)?),
        Text::of(String::from_str(alloc, identifier)?),
    ))
}

fn period_value(alloc: Global, value: &Value) -> Result<StatedValue, Refusal>
    ensures { Reads result (period_value (view value.now)) }
{
    match value.as_str() {
        Some(text) => Ok(StatedValue::Text(normal_period(alloc, text)?)),
        None => Err(Refusal::Bad),
    }
}

fn text_value(alloc: Global, value: &Value) -> Result<StatedValue, Refusal>
    ensures { Reads result (text_value (view value.now)) }
{
    match value.as_str() {
        Some(text) => Ok(plain_text(alloc, text)?),
        None => Err(Refusal::Bad),
    }
}

fn plain_text(alloc: Global, text: &str) -> Result<StatedValue, Memory>
    ensures { IfOk result (λ value. value ≡ stated.Text text.now) }
{
    Ok(StatedValue::Text(Text::of(String::from_str(alloc, text)?)))
}

fn unit_part(
    alloc: Global,
    prefixes: &Prefixes,
    value: &Value,
) -> Result<Option<StatedPart>, Refusal>
    ensures { Reads result (unit_part prefixes.now (view value.now)) }
{
    let Some(text) = value.as_str() else {
        return Err(Refusal::Bad);
    };
    let measures = unit(alloc, prefixes, text)?;
    if is_pure_alone(&measures) {
        return Ok(None);
    }
    let (above, below) = measures;
    Ok(Some(StatedPart {
        dimension: DimensionName::Unit,
        value: StatedValue::Measures(above, below),
    }))
}

fn taxonomy_part(
    alloc: Global,
    known: &Known<'_>,
    name: &str,
    value: &Value,
) -> Result<Option<StatedPart>, Refusal>
    ensures { Reads result (taxonomy_part (known_view known.now) (view value.now) (expanded_name (known_view known.now).prefixes name.now)) }
{
    match expanded_name(known.prefixes, name) {
        Some((space, local)) => {
            let typed = known.is_typed(space, local);
            let value = taxonomy_value(alloc, known.prefixes, typed, value);
            let dimension = DimensionName::Taxonomy(Expanded::of(alloc, space, local)?);
            part_with(dimension, value)
        }
        None => Err(Refusal::Bad),
    }
}

fn taxonomy_value(
    alloc: Global,
    prefixes: &Prefixes,
    typed: bool,
    value: &Value,
) -> Result<StatedValue, Refusal>
    ensures { Reads result (taxonomy_value prefixes.now typed (view value.now)) }
{
    if value.as_null().is_some() {
        return Ok(StatedValue::Null);
    }
    match value.as_str() {
        Some(text) => Ok(member_value(alloc, prefixes, typed, text)?),
        None => Err(Refusal::Bad),
    }
}

// A name where the dimension is not typed and the text has a declared prefix, else the text itself.
fn member_value(
    alloc: Global,
    prefixes: &Prefixes,
    typed: bool,
    text: &str,
) -> Result<StatedValue, Memory>
    ensures { IfOk result (λ value. value ≡ member_value prefixes.now typed text.now) }
{
    if typed {
        return plain_text(alloc, text);
    }
    match expanded_name(prefixes, text) {
        Some((space, local)) => Ok(StatedValue::Name(Expanded::of(alloc, space, local)?)),
        None => plain_text(alloc, text),
    }
}
