// What is answered of a report over the documents of a taxonomy.
ghost use Rattle.xc_report.specs.Opened.{opened};
ghost use Rattle.xc_top.specs.Steps.Stops.{Answers, IsSettled};
ghost use Rattle.xc_top.specs.Steps.Chain.{IsDocumentsAnswer, IsOpenedAnswer, over_asked};
ghost use Rattle.xc_top.specs.Steps.Named.{named_check};
ghost use Rattle.xc_top.specs.Steps.Views.{sought};

use crate::documents::Document;
use crate::judged::{Goal, Question, answer_facts, draft_of};
use crate::refusals::report_refusal;
use crate::status::{Answer, Stop};
use crate::taxonomy::{Taxonomy, taxonomy_of};
use crate::words::Check;
use std::alloc::Global;

/// What is answered of the report's bytes and the documents. The documents are let go before the report is read, and
/// its bytes once it is.
pub fn answer_documents(
    alloc: Global,
    check: &Check<'_>,
    goal: Goal<'_>,
    report: Vec<u8>,
    documents: Vec<Document>,
) -> Result<Answer, Stop>
    ensures answer { Answers result (λ answer. IsDocumentsAnswer check.now.kind (over_asked (named_check check.now) (sought goal.entry)) report.items documents.items answer) }
    ensures settles { Answers result (λ answer. IsSettled answer.status) }
{
    let taxonomy = taxonomy_of(alloc, check.kind, documents)?;
    answer_over(alloc, check, goal, report, taxonomy)
}

// What is answered of the report's bytes over a taxonomy.
fn answer_over(
    alloc: Global,
    check: &Check<'_>,
    goal: Goal<'_>,
    report: Vec<u8>,
    taxonomy: Taxonomy,
) -> Result<Answer, Stop>
    ensures answer { Answers result (λ answer. IsOpenedAnswer (over_asked (named_check check.now) (sought goal.entry)) taxonomy.names taxonomy.networks.items taxonomy.wanted (opened report.items) answer) }
    ensures settles { Answers result (λ answer. IsSettled answer.status) }
{
    let question = Question {
        report: check.report,
        mode: check.mode,
        goal,
    };
    match draft_of(alloc, report) {
        Ok(draft) => answer_facts(
            alloc,
            &question,
            draft,
            taxonomy.names,
            taxonomy.networks,
            taxonomy.wanted,
        ),
        Err(fault) => Err(report_refusal(alloc, check.report, &fault)),
    }
}
