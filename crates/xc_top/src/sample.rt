// What `sample` answers.
ghost use Rattle.std.specs.Prelude.{◌≡◌, ◌≤◌, ℕ, IfOk, false, length};
ghost use Rattle.xc_joint.specs.Kinds.{kind_of};
ghost use Rattle.xc_sample.specs.Samples.{linkbase_text, schema_text};
ghost use Rattle.xc_top.specs.Contents.{are_too_many};
ghost use Rattle.xc_top.specs.Documents.{AreDocumentsOf, IsContentOf, limit};
ghost use Rattle.xc_top.specs.Findings.{IsSummary, joint_status};
ghost use Rattle.xc_top.specs.Samples.{sample_check, sample_files};
ghost use Rattle.xc_top.specs.Steps.Chain.{IsSampleAnswer, Sought, over_asked};
ghost use Rattle.xc_top.specs.Steps.Named.{named_check};
ghost use Rattle.xc_top.specs.Steps.Stops.{Answers, IsSettled};

use crate::check::answer_documents;
use crate::documents::{Document, document_of};
use crate::joint::{is_caused, is_contradicted};
use crate::judged::Goal;
use crate::status::{Answer, Status, Stop};
use crate::verdicts::{any_too_wide, has_finding, status_by, verdicts_of};
use crate::words::Check;
use std::alloc::Global;
use xc_bind::{Verdict, bindings, system};
use xc_calc::{ArcKind, Network};
use xc_interval::Mode;
use xc_joint::{Joint, settle};
use xc_lines::summary_lines;
use xc_lists::{Items, Memory};
use xc_points::{Point, points};
use xc_report::Report;
use xc_sample::{root_value, sample};

/// What is answered of the sample of so many nodes. Its texts are read as `check rounding` reads files of their names;
/// nothing is fetched.
pub fn answer_size(alloc: Global, count: u32) -> Result<Answer, Stop>
    requires some { 2 ≤ count }
    requires few { count ≤ 100000 }
    ensures answer { Answers result (λ answer. IsSampleAnswer count (sample_files count) answer) }
    ensures settles { Answers result (λ answer. IsSettled answer.status) }
{
    let root = root_value(alloc, count)?;
    let sample = sample(alloc, count)?;
    let documents = documents_of(alloc, sample.schema, sample.linkbase)?;
    let goal = Goal::Summary(count, root);
    answer_documents(alloc, &sample_words(), goal, sample.report, documents)
}

// The words of `check rounding` over a sample, whose documents are handed over as they are read.
fn sample_words() -> Check<'static>
    ensures kind { result.kind ≡ sample_check.kind }
    ensures asked { (sought : Sought) → over_asked (named_check result) sought ≡ over_asked sample_check sought }
{
    Check {
        kind: ArcKind::New,
        mode: Mode::Rounding,
        report: "sample.json",
        documents: &[],
    }
}

// The documents of a sample. Each text is let go once it is read.
fn documents_of(alloc: Global, schema: Vec<u8>, linkbase: Vec<u8>) -> Result<Vec<Document>, Memory>
    requires schema { length schema.items ≤ limit }
    requires linkbase { length linkbase.items ≤ limit }
    ensures { IfOk result (λ documents. (n : ℕ) → schema.items ≡ schema_text n → linkbase.items ≡ linkbase_text n
        → AreDocumentsOf (sample_files n) sample_check.documents documents.items) }
{
    let mut documents = Vec::new(alloc);
    documents.push(document_in(alloc, "sample.xsd", schema)?)?;
    documents.push(document_in(alloc, "sample-calc.xml", linkbase)?)?;
    Ok(documents)
}

// The document of this text, which is let go.
fn document_in(alloc: Global, word: &str, text: Vec<u8>) -> Result<Document, Memory>
    requires { length text.items ≤ limit }
    ensures word { IfOk result (λ document. document.word ≡ word.now) }
    ensures content { IfOk result (λ document. IsContentOf text.items document.content) }
{
    document_of(alloc, word, text.as_slice())
}

/// The summary of a sample of `count` nodes, of which the first has the value `root`.
pub fn answer_summary(
    alloc: Global,
    mode: Mode,
    count: u32,
    root: u64,
    report: &Report,
    networks: &[Network],
) -> Result<Answer, Memory>
    requires { are_too_many (length report.now.facts) (length networks.now) ≡ false }
    ensures answer { IfOk result (IsSummary count root mode networks.now report.now.facts) }
    ensures settles { IfOk result (λ answer. IsSettled answer.status) }
{
    let points = points(alloc, report, mode)?;
    let bindings = bindings(alloc, networks, &points)?;
    let verdicts = verdicts_of(alloc, &bindings, &points)?;
    let system = system(alloc, &points, &bindings)?;
    // A system that is kept has bounds on its points alone, and is small.
    let _points = system.points();
    let joint = settle(alloc, &system)?;
    let status = summary_status(points.as_slice(), &verdicts, &joint);
    let text = summary_lines(alloc, count, &points, &bindings, &verdicts, root, &joint)?;
    Ok(Answer {
        status,
        text: Items::of(text),
    })
}

// How the run ends: by what is found, and by what is said of all data points together.
fn summary_status(points: &[Point], verdicts: &[Verdict], joint: &Joint) -> Status
    ensures status { result ≡ joint_status points.now verdicts.now (kind_of joint.now) }
    ensures settles { IsSettled result }
{
    let disagrees = has_finding(points, verdicts);
    let too_wide = any_too_wide(verdicts);
    let contradicted = is_contradicted(joint);
    let caused = is_caused(joint);
    status_by(disagrees || contradicted, too_wide || caused)
}
