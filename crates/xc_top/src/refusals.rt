// What is answered where a document is refused or cannot be read.
ghost use Rattle.std.specs.Prelude.{◌≡◌, Some, option_map, string_bytes};
ghost use Rattle.xc_top.specs.declared.status.Stop.TheVariants as stop;
ghost use Rattle.xc_top.specs.Steps.Stops.{IsSettled, IfNamed};
ghost use Rattle.xc_top.specs.Answers.{make_answer, unread, refused, refused_at, refusal, numbered_refusal, tree_refusal, schema_refusal, link_refusal, report_refusal, name_refusal, certificate_refusal};

use crate::status::{Answer, Status, Stop};
use std::alloc::Global;
use xc_calc::LinkFault;
use xc_cert::CertFault;
use xc_concepts::SchemaFault;
use xc_elements::TreeFault;
use xc_lines::{placed_refusal_line, read_fault_line, refusal_line};
use xc_lists::Items;
use xc_names::NameFault;
use xc_report::ReportFault;

// An answer with one line.
fn stop_with(status: Status, line: String) -> Stop
    ensures { result ≡ stop.Named (make_answer status (string_bytes line)) }
{
    Stop::Named(Answer {
        status,
        text: Items::of(line.into_bytes()),
    })
}

/// A file that could not be read.
pub fn read_fault(alloc: Global, word: &str) -> Stop
    ensures { IfNamed result (λ answer. answer ≡ unread word.now) }
{
    match read_fault_line(alloc, word) {
        Ok(line) => stop_with(Status::ReadFault, line),
        Err(_) => Stop::Memory,
    }
}

/// A document that is refused.
pub fn coded_refusal(alloc: Global, word: &str, code: &str) -> Stop
    ensures answer { IfNamed result (λ answer. answer ≡ refused word.now code.now) }
    ensures status { IfNamed result (λ answer. IsSettled answer.status) }
{
    match refusal_line(alloc, word, code) {
        Ok(line) => stop_with(Status::Refused, line),
        Err(_) => Stop::Memory,
    }
}

/// A document that is refused, with the place of the fault in it.
pub fn placed_refusal(alloc: Global, word: &str, code: &str, place: &str) -> Stop
    ensures answer { IfNamed result (λ answer. answer ≡ refused_at word.now code.now place.now) }
    ensures status { IfNamed result (λ answer. IsSettled answer.status) }
{
    match placed_refusal_line(alloc, word, code, place) {
        Ok(line) => stop_with(Status::Refused, line),
        Err(_) => Stop::Memory,
    }
}

// A fault of a document by its code, with the place beside it, where it has one. A fault without a code is want of memory.
fn refusal(alloc: Global, word: &str, code: Option<&'static str>, place: Option<&str>) -> Stop
    ensures answer { IfNamed result (λ answer.
        refusal word.now (option_map (λ code. code.now) code.entry) (option_map (λ place. place.now) place.entry) ≡ Some answer) }
    ensures status { IfNamed result (λ answer. IsSettled answer.status) }
{
    let Some(code) = code else {
        return Stop::Memory;
    };
    match place {
        Some(place) => placed_refusal(alloc, word, code, place),
        None => coded_refusal(alloc, word, code),
    }
}

// The same where the place is a number.
fn numbered_refusal(
    alloc: Global,
    word: &str,
    code: Option<&'static str>,
    place: Option<u64>,
) -> Stop
    ensures answer { IfNamed result (λ answer.
        numbered_refusal word.now (option_map (λ code. code.now) code.entry) place ≡ Some answer) }
    ensures status { IfNamed result (λ answer. IsSettled answer.status) }
{
    let Some(place) = place else {
        return refusal(alloc, word, code, None);
    };
    match place.to_string(alloc) {
        Ok(place) => refusal(alloc, word, code, Some(place.as_str())),
        Err(_) => Stop::Memory,
    }
}

/// A document whose elements have a fault.
pub fn tree_refusal(alloc: Global, word: &str, fault: TreeFault) -> Stop
    ensures answer { IfNamed result (λ answer. tree_refusal word.now fault ≡ Some answer) }
    ensures status { IfNamed result (λ answer. IsSettled answer.status) }
{
    numbered_refusal(alloc, word, fault.code(), fault.place())
}

/// A schema that breaks a rule.
pub fn schema_refusal(alloc: Global, word: &str, fault: SchemaFault) -> Stop
    ensures answer { IfNamed result (λ answer. schema_refusal word.now fault ≡ Some answer) }
    ensures status { IfNamed result (λ answer. IsSettled answer.status) }
{
    numbered_refusal(alloc, word, fault.code(), node_place(fault.place()))
}

/// A linkbase that breaks a rule.
pub fn link_refusal(alloc: Global, word: &str, fault: LinkFault) -> Stop
    ensures answer { IfNamed result (λ answer. link_refusal word.now fault ≡ Some answer) }
    ensures status { IfNamed result (λ answer. IsSettled answer.status) }
{
    numbered_refusal(alloc, word, fault.code(), node_place(fault.place()))
}

fn node_place(node: Option<u32>) -> Option<u64>
    ensures { result ≡ node }
{
    match node {
        Some(node) => Some(node as u64),
        None => None,
    }
}

/// A report that has a fault.
pub fn report_refusal(alloc: Global, word: &str, fault: &ReportFault) -> Stop
    ensures answer { IfNamed result (λ answer. report_refusal word.now fault.now ≡ Some answer) }
    ensures status { IfNamed result (λ answer. IsSettled answer.status) }
{
    refusal(alloc, word, fault.code(), fault.place())
}

/// A text that is no certificate.
pub fn certificate_refusal(alloc: Global, word: &str, fault: CertFault) -> Stop
    ensures answer { IfNamed result (λ answer. certificate_refusal word.now fault ≡ Some answer) }
    ensures status { IfNamed result (λ answer. IsSettled answer.status) }
{
    numbered_refusal(alloc, word, fault.code(), fault.place())
}

/// A name that the report is asked for and that has a fault, with the word in which it stands.
pub fn name_refusal(alloc: Global, word: &str, fault: NameFault, name: &str) -> Stop
    ensures answer { IfNamed result (λ answer. name_refusal word.now fault name.now ≡ Some answer) }
    ensures status { IfNamed result (λ answer. IsSettled answer.status) }
{
    refusal(alloc, word, fault.code(), Some(name))
}
