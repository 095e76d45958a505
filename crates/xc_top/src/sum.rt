// What `sum` answers.
ghost use Rattle.std.specs.Prelude.{◌≡◌, ◌∷◌, [], ℕ, Some, None, Ok, true, false, map, IfOk, OnOk};
ghost use Rattle.std.specs.List.{zip};
ghost use Rattle.xc_names.specs.NameSets.{is_among};
ghost use Rattle.xc_lists.specs.Places.{first_given};
ghost use Rattle.xc_names.specs.Names.{KeepsNumbers};
ghost use Rattle.xc_report.specs.Drafts.{draft_view};
ghost use Rattle.xc_report.specs.Opened.{opened};
ghost use Rattle.xc_top.specs.Steps.Stops.{Answers, IfStopped, IsSettled};
ghost use Rattle.xc_top.specs.Steps.Named.{named_sum};
ghost use Rattle.xc_top.specs.Steps.Chain.{IsReportAnswer, sum_asked};
ghost use Rattle.xc_top.specs.Sums.{AreNodesOf, is_number_of, AreSumNumbers, sum_network, arc_to, weight_of, named_words, unbound, number_in};
ghost use Rattle.xc_top.specs.Steps.Views.{asked};
ghost use Rattle.xc_top.specs.Words.{texts, name_of};

use crate::judged::{Goal, Question, answer_facts, draft_of};
use crate::refusals::{name_refusal, report_refusal};
use crate::status::{Answer, Stop};
use crate::words::{Sum, is_negative, name_of};
use std::alloc::Global;
use xc_calc::{Arc, Network};
use xc_decimal::{Decimal, read_decimal};
use xc_lists::{Items, Memory, Text};
use xc_names::{NameId, NameSet, Names, Prefixes, Wanted, expand};
use xc_report::Draft;

/// What is answered of the report's bytes, which are let go once the report is read.
pub fn answer_report(alloc: Global, sum: &Sum<'_>, report: Vec<u8>) -> Result<Answer, Stop>
    ensures answer { Answers result (λ answer. IsReportAnswer (named_sum sum.now) (opened report.items) answer) }
    ensures settles { Answers result (λ answer. IsSettled answer.status) }
{
    match draft_of(alloc, report) {
        Ok(draft) => answer_draft(alloc, sum, draft),
        Err(fault) => Err(report_refusal(alloc, sum.report, &fault)),
    }
}

// What is answered of an opened report.
fn answer_draft(alloc: Global, sum: &Sum<'_>, draft: Draft) -> Result<Answer, Stop>
    ensures answer { Answers result (λ answer. IsReportAnswer (named_sum sum.now) (Ok (draft_view draft)) answer) }
    ensures settles { Answers result (λ answer. IsSettled answer.status) }
{
    let mut names = Names::new(alloc);
    let named = numbers_of(alloc, sum, draft.prefixes(), &mut names)?;
    let networks = networks_of(alloc, sum, &named)?;
    let wanted = wanted_of(alloc, &named)?;
    answer_facts(alloc, &question_of(sum), draft, names, networks, wanted)
}

// The numbers of the names of the words.
#[derive(Drop)]
struct Numbers {
    total: NameId,
    terms: Vec<NameId>,
}

// Numbers the names of the words, or names the first whose prefix is not declared.
fn numbers_of(
    alloc: Global,
    sum: &Sum<'_>,
    prefixes: &Prefixes,
    names: &mut Names,
) -> Result<Numbers, Stop>
    ensures total { IfOk result (λ numbers. number_in prefixes.now names.new sum.now.total.now ≡ Some numbers.total.0) }
    ensures terms { IfOk result (λ numbers. map (λ term. number_in prefixes.now names.new (name_of term)) (texts sum.now.terms.now) ≡ map (λ id. Some id.0) numbers.terms.items) }
    ensures bound { OnOk result (first_given (unbound prefixes.now sum.now.report.now) (named_words (named_sum sum.now)) ≡ None) }
    ensures refused { IfStopped result (λ answer. first_given (unbound prefixes.now sum.now.report.now) (named_words (named_sum sum.now)) ≡ Some answer) }
    ensures status { IfStopped result (λ answer. IsSettled answer.status) }
{
    let total = number_of(alloc, sum.report, sum.total, sum.total, prefixes, names)?;
    let terms = term_numbers(alloc, sum.report, sum.terms, prefixes, names)?;
    Ok(Numbers { total, terms })
}

// The numbers of the contributors' names.
fn term_numbers(
    alloc: Global,
    report: &str,
    terms: &[String],
    prefixes: &Prefixes,
    names: &mut Names,
) -> Result<Vec<NameId>, Stop>
    ensures numbers { IfOk result (λ ids. map (λ term. number_in prefixes.now names.new (name_of term)) (texts terms.now) ≡ map (λ id. Some id.0) ids.items) }
    ensures bound { OnOk result (first_given (unbound prefixes.now report.now) (map (λ term. (term, name_of term)) (texts terms.now)) ≡ None) }
    ensures refused { IfStopped result (λ answer. first_given (unbound prefixes.now report.now) (map (λ term. (term, name_of term)) (texts terms.now)) ≡ Some answer) }
    ensures status { IfStopped result (λ answer. IsSettled answer.status) }
    ensures kept { KeepsNumbers names.old names.new }
{
    let mut ids = Vec::new(alloc);
    for term in terms {
        ids.push(term_number(alloc, report, term.as_str(), prefixes, names)?)?;
    }
    Ok(ids)
}

// The number of a contributor's name.
fn term_number(
    alloc: Global,
    report: &str,
    term: &str,
    prefixes: &Prefixes,
    names: &mut Names,
) -> Result<NameId, Stop>
    ensures number { IfOk result (λ id. number_in prefixes.now names.new (name_of term.now) ≡ Some id.0) }
    ensures bound { OnOk result (unbound prefixes.now report.now (term.now, name_of term.now) ≡ None) }
    ensures refused { IfStopped result (λ answer. unbound prefixes.now report.now (term.now, name_of term.now) ≡ Some answer) }
    ensures status { IfStopped result (λ answer. IsSettled answer.status) }
    ensures kept { KeepsNumbers names.old names.new }
{
    number_of(alloc, report, term, name_of(term), prefixes, names)
}

// The number of the name in a word.
fn number_of(
    alloc: Global,
    report: &str,
    word: &str,
    name: &str,
    prefixes: &Prefixes,
    names: &mut Names,
) -> Result<NameId, Stop>
    ensures number { IfOk result (λ id. number_in prefixes.now names.new name.now ≡ Some id.0) }
    ensures bound { OnOk result (unbound prefixes.now report.now (word.now, name.now) ≡ None) }
    ensures refused { IfStopped result (λ answer. unbound prefixes.now report.now (word.now, name.now) ≡ Some answer) }
    ensures status { IfStopped result (λ answer. IsSettled answer.status) }
    ensures kept { KeepsNumbers names.old names.new }
{
    match expand(names, prefixes, name) {
        Ok(id) => Ok(id),
        Err(fault) => Err(name_refusal(alloc, report, fault, word)),
    }
}

// The networks: there is one.
fn networks_of(alloc: Global, sum: &Sum<'_>, numbers: &Numbers) -> Result<Vec<Network>, Memory>
    ensures { IfOk result (λ networks. networks.items ≡ sum_network numbers.now.total (zip (texts sum.now.terms.now) numbers.now.terms.items) ∷ []) }
{
    let mut networks = Vec::new(alloc);
    networks.push(network_of(alloc, sum, numbers)?)?;
    Ok(networks)
}

fn network_of(alloc: Global, sum: &Sum<'_>, numbers: &Numbers) -> Result<Network, Memory>
    ensures { IfOk result (λ network. network ≡ sum_network numbers.now.total (zip (texts sum.now.terms.now) numbers.now.terms.items)) }
{
    Ok(Network {
        role: Text::of(String::from_str(alloc, "sum")?),
        arcs: Items::of(arcs_of(alloc, numbers.total, sum.terms, &numbers.terms)?),
    })
}

// An arc from the total to each contributor.
fn arcs_of(
    alloc: Global,
    total: NameId,
    terms: &[String],
    ids: &[NameId],
) -> Result<Vec<Arc>, Memory>
    ensures { IfOk result (λ arcs. arcs.items ≡ map (arc_to total) (zip (texts terms.now) ids.now)) }
{
    let mut arcs = Vec::new(alloc);
    let mut left = ids;
    for term in terms {
        let Some((id, rest)) = left.split_first() else {
            return Ok(arcs);
        };
        let weight = weight_of(is_negative(term.as_str()));
        let arc = Arc {
            from: total,
            to: *id,
            weight,
        };
        if arcs.push(arc).is_err() {
            return Err(Memory);
        }
        left = rest;
    }
    Ok(arcs)
}

fn weight_of(negative: bool) -> Decimal
    ensures { result ≡ weight_of negative }
{
    if negative { minus_one() } else { one() }
}

fn one() -> Decimal
    ensures { result ≡ weight_of false }
{
    match read_decimal("1") {
        Ok(weight) => weight,
        Err(_) => unreachable!(),
    }
}

fn minus_one() -> Decimal
    ensures { result ≡ weight_of true }
{
    match read_decimal("-1") {
        Ok(weight) => weight,
        Err(_) => unreachable!(),
    }
}

// The concepts of the words, each once and ascending by number; no dimension is typed.
fn wanted_of(alloc: Global, numbers: &Numbers) -> Result<Wanted, Memory>
    ensures nodes { IfOk result (λ wanted. AreNodesOf (numbers.now.total ∷ numbers.now.terms.items) (map (λ id. id.0) wanted.nodes)) }
    ensures typed { IfOk result (λ wanted. wanted.typed ≡ []) }
{
    let set = set_of(alloc, numbers.total, &numbers.terms)?;
    Ok(Wanted {
        nodes: Items::of(set.ids(alloc)?),
        typed: Items::of(Vec::new(alloc)),
    })
}

fn set_of(alloc: Global, total: NameId, terms: &[NameId]) -> Result<NameSet, Memory>
    ensures { IfOk result (λ set. (n : ℕ) → is_among set n ≡ is_number_of (total ∷ terms.now) n) }
{
    let mut set = NameSet::new(alloc);
    set.insert(total)?;
    for term in terms {
        set.insert(*term)?;
    }
    Ok(set)
}

fn question_of<'a>(sum: &Sum<'a>) -> Question<'a>
    ensures { asked result ≡ sum_asked (named_sum sum.now) }
{
    Question {
        report: sum.report,
        mode: sum.mode,
        goal: Goal::Findings,
    }
}
