// What is answered of the facts of a report.
ghost use Rattle.std.specs.Prelude.{◌≡◌, ◌<◌, ◌*◌, ◌+◌, ◌^◌, Ok, Err, IfOk, IfErr, length, false};
ghost use Rattle.xc_report.specs.Drafts.{draft_view};
ghost use Rattle.xc_report.specs.Opened.{opened};
ghost use Rattle.xc_report.specs.declared.reports.ReportFault.TheVariants as ReportFault;
ghost use Rattle.xc_top.specs.Steps.Stops.{Answers, IsSettled};
ghost use Rattle.xc_top.specs.Contents.{are_too_many};
ghost use Rattle.xc_top.specs.Steps.Chain.{IsFactsAnswer, IsCounted};
ghost use Rattle.xc_top.specs.Steps.Views.{asked};

use crate::certified::answer_certificate;
use crate::findings::answer_findings;
use crate::joint::answer_joint;
use crate::refusals::{coded_refusal, report_refusal};
use crate::sample::answer_summary;
use crate::status::{Answer, Stop};
use std::alloc::Global;
use xc_calc::Network;
use xc_interval::Mode;
use xc_lists::Items;
use xc_names::{Names, Wanted};
use xc_report::{Draft, Report, ReportFault, open_report};

/// What is asked of a report.
#[derive(Drop)]
pub struct Question<'a> {
    /// The word of its file.
    pub report: &'a str,
    /// How its values were made.
    pub mode: Mode,
    pub goal: Goal<'a>,
}

/// What is sought in the facts of a report.
#[derive(Clone, Copy)]
pub enum Goal<'a> {
    /// Its findings alone.
    Findings,
    /// These, with the joint part.
    Joint,
    /// The judgement of a certificate, by the word of its file and its bytes.
    Judgement(&'a str, &'a [u8]),
    /// The summary of a sample, by how many nodes it has and the value of the first.
    Summary(u32, u64),
}

/// A report opened from its bytes, which are let go.
pub fn draft_of(alloc: Global, bytes: Vec<u8>) -> Result<Draft, ReportFault>
    ensures draft { IfOk result (λ draft. opened bytes.items ≡ Ok (draft_view draft)) }
    ensures fault { IfErr result (λ e. ¬ (e ≡ ReportFault.Memory) → opened bytes.items ≡ Err e) }
{
    open_report(alloc, bytes.as_slice())
}

/// What is sought in the facts of an opened report, or their fault. The names, the wanted
/// concepts and the keys are let go once the facts are read: no line speaks of them.
pub fn answer_facts(
    alloc: Global,
    question: &Question<'_>,
    draft: Draft,
    names: Names,
    networks: Vec<Network>,
    wanted: Wanted,
) -> Result<Answer, Stop>
    ensures answer { Answers result (λ answer. IsFactsAnswer (asked question.now) names networks.items wanted (draft_view draft) answer) }
    ensures settles { Answers result (λ answer. IsSettled answer.status) }
{
    let mut names = names;
    let read = draft.facts(&mut names, &wanted);
    drop(names);
    drop(wanted);
    match read {
        Ok(report) => answer_question(alloc, question, without_keys(alloc, report), networks),
        Err(fault) => Err(report_refusal(alloc, question.report, &fault)),
    }
}

// The facts of a report, whose keys are let go.
fn without_keys(alloc: Global, report: Report) -> Report
    ensures { result.facts ≡ report.facts }
{
    Report {
        facts: report.facts,
        keys: Items::of(Vec::new(alloc)),
    }
}

// What is sought in a report, where its facts are not too many for the networks.
fn answer_question(
    alloc: Global,
    question: &Question<'_>,
    report: Report,
    networks: Vec<Network>,
) -> Result<Answer, Stop>
    ensures answer { Answers result (λ answer. IsCounted (asked question.now) networks.items report.facts answer) }
    ensures settles { Answers result (λ answer. IsSettled answer.status) }
{
    if are_too_many(report.facts.as_slice().len(), networks.len()) {
        return Err(coded_refusal(alloc, question.report, "xc:tooMany"));
    }
    match question.goal {
        Goal::Findings => Ok(answer_findings(alloc, question.mode, &report, networks.as_slice())?),
        Goal::Joint => Ok(answer_joint(alloc, question.mode, &report, networks)?),
        Goal::Judgement(word, bytes) => {
            answer_certificate(alloc, question.mode, word, bytes, &report, networks)
        }
        Goal::Summary(count, root) => {
            let networks = networks.as_slice();
            Ok(answer_summary(alloc, question.mode, count, root, &report, networks)?)
        }
    }
}

// Whether the number of facts, times one more than the number of networks, is too great.
fn are_too_many(facts: usize, networks: usize) -> bool
    ensures { result ≡ are_too_many facts networks }
{
    (facts as u128) * (networks as u128 + 1) >= 2_147_483_648
}
