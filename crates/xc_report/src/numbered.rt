// What a report states, by the numbers of names.
ghost use Rattle.std.specs.Prelude.{◌≡◌, Some, IfOk, OnOk};
ghost use Rattle.std.specs.BTreeMap.{insert_entry};
ghost use Rattle.serde_json.specs.View.{members_view};
ghost use Rattle.xc_report.specs.Dimensions.{dimension_cmp, in_order, with_key};
ghost use Rattle.xc_report.specs.Numbered.{id_of, dimension_in, AreMeasures, IsValue, IsPart, AreParts, IsKeyed, numbered_in};
ghost use Rattle.xc_report.specs.Each.{each_some};
ghost use Rattle.xc_report.specs.Reports.{StatedIdsAscend};
ghost use Rattle.xc_report.specs.StatedFacts.{facts_of};
ghost use Rattle.xc_report.specs.Steps.{TellsReport, known_view};
ghost use Rattle.xc_report.specs.Steps.Gained.{MayGain, Lasts, all_names};

use crate::dimensions::{DimValue, Dimension, Key};
use crate::gained::Gained;
use crate::key_lists::Keys;
use crate::known::Known;
use crate::reports::{Fact, Reading, Report, ReportFault};
use crate::stated::{DimensionName, StatedFact, StatedPart, StatedValue};
use crate::stated_facts::stated_fact;
use serde_json::{Map, Value};
use std::alloc::Global;
use std::collections::BTreeMap;
use xc_lists::{Items, Memory, Text};
use xc_names::{Expanded, NameId};

/// A fact with its key, which has no number yet.
#[derive(Debug, Drop)]
pub struct KeyedFact {
    pub id: Text,
    pub concept: NameId,
    pub key: Key,
    pub value: Reading,
    pub decimals: Option<i64>,
}

/// The report of members: the facts that are not left out, with their keys, or the first fault by their
/// ids.
///
/// A member is let go once it is read, and what it states by expanded names once it has its key, so that
/// no name is kept with a fact.
pub fn numbered_report(
    alloc: Global,
    known: &Known<'_>,
    names: &mut Gained<'_>,
    members: Map<String, Value>,
) -> Result<Report, ReportFault>
    ensures report { TellsReport result (known_view known.now) (members_view members.entries) (all_names names.new) }
    ensures ascending { IfOk result (λ _. StatedIdsAscend (facts_of (known_view known.now) (members_view members.entries))) }
    ensures names { MayGain names.old names.new }
{
    let mut keys = Keys::new(alloc);
    let mut facts = Vec::new(alloc);
    for (id, member) in members {
        if let Some(fact) = stated_fact(alloc, known, id.as_str(), &member)? {
            let keyed = keyed_fact(alloc, names, fact)?;
            facts.push(place_fact(&mut keys, keyed)?)?;
        }
    }
    Ok(Report {
        facts: Items::of(facts),
        keys: Items::of(keys.into_list()),
    })
}

// A fact with its key.
fn keyed_fact(alloc: Global, names: &mut Gained<'_>, fact: StatedFact) -> Result<KeyedFact, Memory>
    ensures fact { IfOk result (λ keyed. Lasts (all_names names.new) (λ later. IsKeyed later fact keyed)) }
    ensures names { MayGain names.old names.new }
{
    let parts = numbered_parts(alloc, names, fact.parts.into_vec())?;
    let key = key_of_parts(alloc, parts)?;
    Ok(KeyedFact {
        id: fact.id,
        concept: fact.concept,
        key,
        value: fact.value,
        decimals: fact.decimals,
    })
}

// Dimensions and values by numbers, one by one.
fn numbered_parts(
    alloc: Global,
    names: &mut Gained<'_>,
    parts: Vec<StatedPart>,
) -> Result<Vec<(Dimension, DimValue)>, Memory>
    ensures parts { IfOk result (λ numbered. Lasts (all_names names.new) (λ later. AreParts later parts.items numbered.items)) }
    ensures names { MayGain names.old names.new }
{
    let mut numbered = Vec::new(alloc);
    for part in parts {
        numbered.push(numbered_part(alloc, names, part)?)?;
    }
    Ok(numbered)
}

fn numbered_part(
    alloc: Global,
    names: &mut Gained<'_>,
    part: StatedPart,
) -> Result<(Dimension, DimValue), Memory>
    ensures part { IfOk result (λ numbered. Lasts (all_names names.new) (λ later. IsPart later part numbered)) }
    ensures names { MayGain names.old names.new }
{
    let dimension = numbered_dimension(names, &part.dimension)?;
    let value = numbered_value(alloc, names, part.value)?;
    Ok((dimension, value))
}

fn numbered_dimension(names: &mut Gained<'_>, name: &DimensionName) -> Result<Dimension, Memory>
    ensures dimension { IfOk result (λ dimension. Lasts (all_names names.new) (λ later. dimension_in later name.now ≡ Some dimension)) }
    ensures names { MayGain names.old names.new }
{
    match name {
        DimensionName::Entity => Ok(Dimension::Entity),
        DimensionName::Period => Ok(Dimension::Period),
        DimensionName::Unit => Ok(Dimension::Unit),
        DimensionName::Language => Ok(Dimension::Language),
        DimensionName::NoteId => Ok(Dimension::NoteId),
        DimensionName::Taxonomy(name) => Ok(Dimension::Taxonomy(number(names, name)?)),
    }
}

fn numbered_value(
    alloc: Global,
    names: &mut Gained<'_>,
    value: StatedValue,
) -> Result<DimValue, Memory>
    ensures value { IfOk result (λ numbered. Lasts (all_names names.new) (λ later. IsValue later value numbered)) }
    ensures names { MayGain names.old names.new }
{
    match value {
        StatedValue::Pair(scheme, identifier) => Ok(DimValue::Pair(scheme, identifier)),
        StatedValue::Text(text) => Ok(DimValue::Text(text)),
        StatedValue::Name(name) => Ok(DimValue::Name(number(names, &name)?)),
        StatedValue::Null => Ok(DimValue::Null),
        StatedValue::Measures(above, below) => {
            let above = numbered_measures(alloc, names, &above)?;
            let below = numbered_measures(alloc, names, &below)?;
            Ok(DimValue::Measures(above, below))
        }
    }
}

// The numbers of measures, ascending.
fn numbered_measures(
    alloc: Global,
    names: &mut Gained<'_>,
    measures: &Items<Expanded>,
) -> Result<Items<NameId>, Memory>
    ensures measures { IfOk result (λ ids. Lasts (all_names names.new) (λ later. AreMeasures later measures.now ids)) }
    ensures names { MayGain names.old names.new }
{
    let mut ids = numbers(alloc, names, measures.as_slice())?;
    ids.sort()?;
    Ok(Items::of(ids))
}

fn numbers(alloc: Global, names: &mut Gained<'_>, list: &[Expanded]) -> Result<Vec<NameId>, Memory>
    ensures numbers { IfOk result (λ ids. Lasts (all_names names.new) (λ later. each_some (id_of later) list.now ≡ Some ids.items)) }
    ensures names { MayGain names.old names.new }
{
    let mut ids = Vec::new(alloc);
    for name in list {
        ids.push(number(names, name)?)?;
    }
    Ok(ids)
}

fn number(names: &mut Gained<'_>, name: &Expanded) -> Result<NameId, Memory>
    ensures number { IfOk result (λ id. Lasts (all_names names.new) (λ later. id_of later name.now ≡ Some id)) }
    ensures names { MayGain names.old names.new }
{
    names.number(name.space.as_str(), name.local.as_str())
}

// Dimensions with their values, as a key.
fn key_of_parts(alloc: Global, parts: Vec<(Dimension, DimValue)>) -> Result<Key, Memory>
    ensures { IfOk result (λ key. key ≡ in_order parts.items) }
{
    let mut map = BTreeMap::new(alloc);
    for (dimension, value) in parts {
        put(&mut map, dimension, value)?;
    }
    Key::of(alloc, map)
}

fn put(
    map: &mut BTreeMap<Dimension, DimValue>,
    dimension: Dimension,
    value: DimValue,
) -> Result<(), Memory>
    ensures { OnOk result (map.new.entries ≡ insert_entry dimension_cmp map.old.entries dimension value) }
{
    map.insert(dimension, value)?;
    Ok(())
}

// A fact with the number of its key among these.
fn place_fact(keys: &mut Keys, fact: KeyedFact) -> Result<Fact, Memory>
    ensures fact { IfOk result (λ made. made ≡ numbered_in keys.new fact) }
    ensures keys { OnOk result (keys.new ≡ with_key keys.old fact.key) }
{
    let key = keys.place(fact.key)?;
    Ok(Fact {
        id: fact.id,
        concept: fact.concept,
        key,
        value: fact.value,
        decimals: fact.decimals,
    })
}
