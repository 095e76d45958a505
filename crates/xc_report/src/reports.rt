// Whole reports: the facts of the concepts that are wanted, with the keys of their dimensions.
ghost use Rattle.std.specs.Prelude.{◌≡◌, option_map};
ghost use Rattle.xc_report.specs.Codes.{code_of, member_name, place_of};
ghost use Rattle.xc_report.specs.declared.reports.ReportFault.TheVariants as ReportFault;

use crate::dimensions::Key;
use std::alloc::{AllocError, AllocFailed};
use xc_decimal::Decimal;
use xc_lists::{Items, Memory, Text};
use xc_names::NameId;

/// The value of a fact.
#[derive(Clone, Copy, Debug, PartialEq, Eq)]
pub enum Reading {
    /// A decimal number.
    Number(Decimal),
    /// A decimal text whose digits exceed 2^126 in magnitude, or whose places exceed 37.
    Wide,
}

/// A fact of a concept that is wanted.
#[derive(Debug, Drop)]
pub struct Fact {
    /// The name of its member in `facts`.
    pub id: Text,
    /// The number of its concept.
    pub concept: NameId,
    /// The number of its key: its place among the report's keys.
    pub key: u64,
    /// Its value.
    pub value: Reading,
    /// None where the value is exact.
    pub decimals: Option<i64>,
}

/// The facts of the concepts that are wanted and that are not nil.
#[derive(Debug, Drop)]
pub struct Report {
    /// By id as bytes, ascending.
    pub facts: Items<Fact>,
    /// The keys of the facts, each once, in the order of their first facts.
    pub keys: Items<Key>,
}

/// A part of a report that is missing, or is not of the type that it has to be.
#[derive(Clone, Copy, Debug, PartialEq, Eq)]
pub enum Member {
    /// The JSON value is no object.
    Root,
    /// `documentInfo` is missing, or no object.
    DocumentInfo,
    /// `documentType` is missing, or not that of xBRL-JSON 1.0.
    DocumentType,
    /// `namespaces` is there, and is no object of texts.
    Namespaces,
    /// `facts` is there, and is no object.
    Facts,
}

impl Member {
    /// The name that is printed.
    pub fn name(self) -> &'static str
        ensures { result.now ≡ member_name self }
    {
        match self {
            Member::Root => "root",
            Member::DocumentInfo => "documentInfo",
            Member::DocumentType => "documentType",
            Member::Namespaces => "namespaces",
            Member::Facts => "facts",
        }
    }
}

/// Why bytes are not read as a report.
#[derive(Debug, Drop)]
pub enum ReportFault {
    /// Want of memory.
    Memory,
    /// The bytes are no JSON value in UTF-8.
    NotJson,
    /// The first part of the report that is not as it has to be.
    NotReport(Member),
    /// The fact of this id has no concept with a declared prefix, a dimension that is none, or one
    /// dimension twice.
    BadName(Text),
    /// The value of the fact of this id is missing, or is neither null nor a decimal text.
    BadValue(Text),
    /// The decimals of the fact of this id are there, and are no whole number in the signed 64-bit range.
    BadDecimals(Text),
}

impl ReportFault {
    /// The code that is printed; None for want of memory alone.
    pub fn code(&self) -> Option<&'static str>
        ensures { option_map (λ code. code.now) result ≡ code_of self.now }
    {
        match self {
            ReportFault::Memory => None,
            ReportFault::NotJson => Some("xc:notJson"),
            ReportFault::NotReport(_) => Some("xc:notReport"),
            ReportFault::BadName(_) => Some("xc:badName"),
            ReportFault::BadValue(_) => Some("xc:badValue"),
            ReportFault::BadDecimals(_) => Some("xc:badDecimals"),
        }
    }

    /// The part that is wrong, or the id of the fact, where the fault has one.
    pub fn place(&self) -> Option<&str>
        ensures { option_map (λ place. place.now) result ≡ place_of self.now }
    {
        match self {
            ReportFault::Memory | ReportFault::NotJson => None,
            ReportFault::NotReport(part) => Some(part.name()),
            ReportFault::BadName(id) => Some(id.as_str()),
            ReportFault::BadValue(id) => Some(id.as_str()),
            ReportFault::BadDecimals(id) => Some(id.as_str()),
        }
    }
}

impl From<AllocError> for ReportFault {
    ghost from_gives = { λ _ e. e ≡ ReportFault.Memory };

    fn from(_: AllocError) -> Self {
        ReportFault::Memory
    }
}

impl<T: Drop> From<AllocFailed<T>> for ReportFault {
    ghost from_gives = { λ _ e. e ≡ ReportFault.Memory };

    fn from(_: AllocFailed<T>) -> Self {
        ReportFault::Memory
    }
}

impl From<Memory> for ReportFault {
    ghost from_gives = { λ _ e. e ≡ ReportFault.Memory };

    fn from(_: Memory) -> Self {
        ReportFault::Memory
    }
}
