// A report before its facts are read.
ghost use Rattle.std.specs.Prelude.{◌≡◌, List, Ok, Err, Some, None, IfOk, IfErr, OnOk, codes, option_map};
ghost use Rattle.serde_json.specs.Find.{get};
ghost use Rattle.serde_json.specs.View.{view, members_view};
ghost use Rattle.xc_names.specs.Names.{KeepsNumbers};
ghost use Rattle.xc_report.specs.Drafts.{draft_view};
ghost use Rattle.xc_report.specs.Numbered.{IsReport};
ghost use Rattle.xc_report.specs.Opened.{opened, first_wrong, are_texts_or_missing, is_object_or_missing, declared_by, declared_after, namespaces_in, members_or_none, text_of};
ghost use Rattle.xc_report.specs.Json.{json_of};
ghost use Rattle.xc_report.specs.Steps.{TellsRead};
ghost use Rattle.xc_report.specs.Reports.{IdsAscend, StandOnce, KeysAscend, HaveKeys};
ghost use Rattle.xc_report.specs.StatedFacts.{stated_facts};
ghost use Rattle.xc_report.specs.Wanted.{known_of};
ghost use Rattle.xc_report.specs.declared.stated.StatedFact.{StatedFact as Stated};
ghost use Rattle.xc_report.specs.declared.reports.ReportFault.TheVariants as ReportFault;

use crate::gained::{Gained, add_gained};
use crate::known::Known;
use crate::numbered::numbered_report;
use crate::parts::{are_texts, has_json_type};
use crate::reports::{Member, Report, ReportFault};
use serde_json::{Map, Value};
use std::alloc::Global;
use xc_lists::Memory;
use xc_names::{Names, Prefixes, Wanted};

/// A report whose parts are as they have to be: what its prefixes stand for, and its facts, which
/// are not read yet.
#[derive(Drop)]
pub struct Draft {
    report: Value,
    prefixes: Prefixes,
    alloc: Global,
}

/// A report in xBRL-JSON 1.0 from its bytes.
///
/// `NotJson` comes exactly where the bytes are no JSON value in UTF-8. `NotReport` names the first
/// part that is not as it has to be, in the order of `Member`.
pub fn open_report(alloc: Global, bytes: &[u8]) -> Result<Draft, ReportFault>
    ensures draft { IfOk result (λ draft. opened bytes.now ≡ Ok (draft_view draft)) }
    ensures fault { IfErr result (λ e. ¬ (e ≡ ReportFault.Memory) → opened bytes.now ≡ Err e) }
{
    let report = json_value(alloc, bytes)?;
    if let Some(wrong) = first_wrong(&report) {
        return Err(ReportFault::NotReport(wrong));
    }
    let prefixes = declared_in(alloc, &report)?;
    Ok(Draft {
        report,
        prefixes,
        alloc,
    })
}

impl Draft {
    /// What prefixes stand for: the report's `namespaces`.
    pub fn prefixes(&self) -> &Prefixes
        ensures { result.now ≡ (draft_view self.now).prefixes }
    {
        &self.prefixes
    }

    /// The facts of the nodes that are wanted, with their keys. A fact whose concept is no node is not
    /// read further, and one whose value is null is left out.
    ///
    /// `BadName`, `BadValue` and `BadDecimals` name the first fact that has a fault, by id as bytes, and
    /// are its first fault in this order: its concept, its value's type, its dimensions, its value's
    /// text, its decimals. Names that were there keep their numbers, and new ones may be gained; after a
    /// fault other than want of memory they are as before.
    pub fn facts(self, names: &mut Names, wanted: &Wanted) -> Result<Report, ReportFault>
        ensures facts { IfOk result (λ report. (facts : List Stated) × ((stated_facts (known_of (draft_view self).prefixes names.old wanted.now) (draft_view self).facts ≡ Ok facts) × IsReport names.new facts report)) }
        ensures ascending { IfOk result (λ report. IdsAscend report.facts) }
        ensures keys { IfOk result (λ report. HaveKeys report.keys report.facts) }
        ensures once { IfOk result (λ report. StandOnce report.keys) }
        ensures ordered { IfOk result (λ report. KeysAscend report.keys) }
        ensures fault { IfErr result (λ e. ¬ (e ≡ ReportFault.Memory) → stated_facts (known_of (draft_view self).prefixes names.old wanted.now) (draft_view self).facts ≡ Err e) }
        ensures kept { KeepsNumbers names.old names.new }
        ensures unchanged { IfErr result (λ e. ¬ (e ≡ ReportFault.Memory) → names.new ≡ names.old) }
    {
        let (report, gained) = self.read(names, wanted)?;
        add_gained(names, &gained)?;
        Ok(report)
    }

    // The report, and the names that it gains.
    fn read(self, names: &Names, wanted: &Wanted) -> Result<(Report, Names), ReportFault>
        ensures report { TellsRead result (known_of (draft_view self).prefixes names.now wanted.now) (draft_view self).facts names.now }
    {
        let Draft {
            report,
            prefixes,
            alloc,
        } = self;
        let known = Known::of(alloc, &prefixes, names, wanted)?;
        let mut gained = Gained::new(alloc, names);
        let members = object_in(alloc, member_in(report, "facts"));
        let report = numbered_report(alloc, &known, &mut gained, members)?;
        Ok((report, gained.into_gained()))
    }
}

// The value of a member, where there is one. All else of a value is let go.
fn member_in(value: Value, name: &str) -> Option<Value>
    ensures { option_map view result ≡ get name.now (view value) }
{
    match value {
        Value::Object(members) => {
            let mut members = members;
            members.remove(name)
        }
        _ => None,
    }
}

// The members of an object that may be missing, or none.
fn object_in(alloc: Global, value: Option<Value>) -> Map<String, Value>
    ensures { members_view result.entries ≡ members_or_none (option_map view value) }
{
    match value {
        Some(value) => object_of(alloc, value),
        None => Map::new(alloc),
    }
}

// The members of an object, or none.
fn object_of(alloc: Global, value: Value) -> Map<String, Value>
    ensures { members_view result.entries ≡ members_or_none (Some (view value)) }
{
    match value {
        Value::Object(members) => members,
        _ => Map::new(alloc),
    }
}

// The JSON value of bytes; `NotJson` where they are not UTF-8 or spell none.
fn json_value(alloc: Global, bytes: &[u8]) -> Result<Value, ReportFault>
    ensures ok { IfOk result (λ value. json_of bytes.now ≡ Some (view value)) }
    ensures err { IfErr result (λ e. ¬ (e ≡ ReportFault.Memory) → (e ≡ ReportFault.NotJson) × (json_of bytes.now ≡ None)) }
{
    match Value::from_slice(alloc, bytes) {
        Ok(value) => Ok(value),
        Err(e) => {
            if e.is_memory() {
                Err(ReportFault::Memory)
            } else {
                Err(ReportFault::NotJson)
            }
        }
    }
}

// The first part of a report that is not as it has to be.
fn first_wrong(report: &Value) -> Option<Member>
    ensures { result ≡ first_wrong (view report.now) (get (codes "documentInfo") (view report.now)) }
{
    match report.get("documentInfo") {
        Some(info) => wrong_beside(report, info),
        None => if report.is_object() {
            Some(Member::DocumentInfo)
        } else {
            Some(Member::Root)
        },
    }
}

fn wrong_beside(report: &Value, info: &Value) -> Option<Member>
    ensures { result ≡ first_wrong (view report.now) (Some (view info.now)) }
{
    if !info.is_object() {
        Some(Member::DocumentInfo)
    } else if !has_json_type(info) {
        Some(Member::DocumentType)
    } else if !are_texts_or_missing(info.get("namespaces")) {
        Some(Member::Namespaces)
    } else if !is_object_or_missing(report.get("facts")) {
        Some(Member::Facts)
    } else {
        None
    }
}

fn are_texts_or_missing(value: Option<&Value>) -> bool
    ensures { result ≡ are_texts_or_missing (option_map (λ v. view v.now) value.entry) }
{
    match value {
        Some(value) => are_texts(value),
        None => true,
    }
}

fn is_object_or_missing(value: Option<&Value>) -> bool
    ensures { result ≡ is_object_or_missing (option_map (λ v. view v.now) value.entry) }
{
    match value {
        Some(value) => value.is_object(),
        None => true,
    }
}

// What the prefixes of a report stand for.
fn declared_in(alloc: Global, report: &Value) -> Result<Prefixes, Memory>
    ensures { IfOk result (λ prefixes. prefixes ≡ declared_by (namespaces_in (get (codes "documentInfo") (view report.now)))) }
{
    let mut prefixes = Prefixes::new(alloc);
    let Some(info) = report.get("documentInfo") else {
        return Ok(prefixes);
    };
    if let Some(members) = info.get("namespaces").and_then(Value::as_object) {
        declare(&mut prefixes, members)?;
    }
    Ok(prefixes)
}

fn declare(prefixes: &mut Prefixes, members: &Map<String, Value>) -> Result<(), Memory>
    ensures { OnOk result (prefixes.new ≡ declared_after prefixes.old (members_view members.now.entries)) }
{
    for (prefix, uri) in members {
        prefixes.set(prefix.as_str(), text_of(uri))?;
    }
    Ok(())
}

fn text_of(value: &Value) -> &str
    ensures { result.now ≡ text_of (view value.now) }
{
    match value.as_str() {
        Some(text) => text,
        None => "",
    }
}
