// What a command answers.
ghost use Rattle.std.specs.Prelude.{◌≡◌, ◌≤◌, length, IfOk};
ghost use Rattle.xc_top.specs.Steps.Stops.{Answers, IsAnswerIn, IsEnding};
ghost use Rattle.xc_top.specs.Steps.Named.{IsSized, named, named_sum, named_check, named_verify};
ghost use Rattle.xc_top.specs.Steps.Fetches.{IsOver, Leaves};
ghost use Rattle.xc_top.specs.Words.{SumOf, CheckOf, VerifyOf, SampleOf, file_words};

use crate::check::answer_documents;
use crate::documents::{fetch, fetch_documents};
use crate::judged::Goal;
use crate::sample::answer_size;
use crate::status::{Answer, Stop};
use crate::sum::answer_report;
use crate::words::{Check, Command, Sum, Verify};
use std::alloc::Global;
use xc_io::Shelf;
use xc_lists::Memory;

/// What is written of a command, and how the run ends.
pub fn answer_command<S: Shelf>(
    alloc: Global,
    command: &Command<'_>,
    shelf: &mut S,
) -> Result<Answer, Memory>
    requires { IsSized (named command.now) }
    ensures answer { IfOk result (λ answer. IsOver S.held S.steady S.faults shelf.old shelf.new (named command.now) answer) }
    ensures ends { IfOk result (λ answer. IsEnding answer.status) }
    ensures left { Leaves S.held S.steady S.faults S.fetches shelf.old shelf.new (length (file_words (named command.now))) }
{
    answer_in(answer_of(alloc, command, shelf))
}

// What was answered, also where the run was stopped.
fn answer_in(answer: Result<Answer, Stop>) -> Result<Answer, Memory>
    ensures { IfOk result (λ given. IsAnswerIn answer given) }
{
    match answer {
        Ok(answer) => Ok(answer),
        Err(Stop::Named(answer)) => Ok(answer),
        Err(Stop::Memory) => Err(Memory),
    }
}

fn answer_of<S: Shelf>(alloc: Global, command: &Command<'_>, shelf: &mut S) -> Result<Answer, Stop>
    requires { IsSized (named command.now) }
    ensures answer { Answers result (λ answer. IsOver S.held S.steady S.faults shelf.old shelf.new (named command.now) answer) }
    ensures left { Leaves S.held S.steady S.faults S.fetches shelf.old shelf.new (length (file_words (named command.now))) }
{
    match command {
        Command::Sum(sum) => answer_sum(alloc, sum, shelf),
        Command::Check(check) => answer_check(alloc, check, shelf),
        Command::Verify(verify) => answer_verify(alloc, verify, shelf),
        Command::Sample(count) => answer_sample(alloc, *count, shelf),
    }
}

fn answer_sum<S: Shelf>(alloc: Global, sum: &Sum<'_>, shelf: &mut S) -> Result<Answer, Stop>
    ensures answer { Answers result (λ answer. IsOver S.held S.steady S.faults shelf.old shelf.new (SumOf (named_sum sum.now)) answer) }
    ensures left { Leaves S.held S.steady S.faults S.fetches shelf.old shelf.new (length (file_words (SumOf (named_sum sum.now)))) }
{
    let report = fetch(alloc, sum.report, shelf)?;
    answer_report(alloc, sum, report)
}

fn answer_check<S: Shelf>(alloc: Global, check: &Check<'_>, shelf: &mut S) -> Result<Answer, Stop>
    ensures answer { Answers result (λ answer. IsOver S.held S.steady S.faults shelf.old shelf.new (CheckOf (named_check check.now)) answer) }
    ensures left { Leaves S.held S.steady S.faults S.fetches shelf.old shelf.new (length (file_words (CheckOf (named_check check.now)))) }
{
    let report = fetch(alloc, check.report, shelf)?;
    let documents = fetch_documents(alloc, check.documents, shelf)?;
    answer_documents(alloc, check, Goal::Joint, report, documents)
}

fn answer_verify<S: Shelf>(
    alloc: Global,
    verify: &Verify<'_>,
    shelf: &mut S,
) -> Result<Answer, Stop>
    ensures answer { Answers result (λ answer. IsOver S.held S.steady S.faults shelf.old shelf.new (VerifyOf (named_verify verify.now)) answer) }
    ensures left { Leaves S.held S.steady S.faults S.fetches shelf.old shelf.new (length (file_words (VerifyOf (named_verify verify.now)))) }
{
    let over = &verify.over;
    let certificate = fetch(alloc, verify.certificate, shelf)?;
    let report = fetch(alloc, over.report, shelf)?;
    let documents = fetch_documents(alloc, over.documents, shelf)?;
    let goal = Goal::Judgement(verify.certificate, &certificate);
    answer_documents(alloc, over, goal, report, documents)
}

// A sample is made, and nothing is fetched.
fn answer_sample<S: Shelf>(alloc: Global, count: u32, _shelf: &mut S) -> Result<Answer, Stop>
    requires some { 2 ≤ count }
    requires few { count ≤ 100000 }
    ensures answer { Answers result (λ answer. IsOver S.held S.steady S.faults _shelf.old _shelf.new (SampleOf count) answer) }
    ensures left { Leaves S.held S.steady S.faults S.fetches _shelf.old _shelf.new (length (file_words (SampleOf count))) }
{
    answer_size(alloc, count)
}
