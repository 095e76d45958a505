// The top call.
ghost use Rattle.std.specs.Prelude.{◌≡◌, ◌≢◌, ◌≤◌, ◌+◌, ◌⊎◌, ℕ, List, None, Some, true, length, IfSome};
ghost use Rattle.std.specs.Io.KnownBytes.{Appends, Keeps};
ghost use Rattle.xc_io.specs.Faults.{Rose, next_count};
ghost use Rattle.xc_lines.specs.Lines.{usage_line};
ghost use Rattle.xc_top.specs.Answer.{IsAnswerOf};
ghost use Rattle.xc_top.specs.Answers.{make_answer};
ghost use Rattle.xc_top.specs.Laws.{AnswersAreOne};
ghost use Rattle.xc_top.specs.Run.{IsAnswered, AppendsPart, IsReadFaultLine, HasFiles, IsUnrefused, IsJudged, LacksFile};
ghost use Rattle.xc_top.specs.Proven.{IsProven};
ghost use Rattle.xc_top.specs.Settled.{ForestsAreSettled, SettledIsAccepted};
ghost use Rattle.xc_top.specs.Words.{VerifyOf, VerifyWords, files_named, words_of, texts};
ghost use Rattle.xc_top.specs.declared.status.Answer.{Answer};

use crate::Status;
use crate::answer::answer_command;
use crate::laws::{answers_are_one, forests_are_settled, settled_is_accepted};
use crate::words::read_words;
use std::alloc::Global;
use xc_io::{Shelf, Sink, SinkFault};
use xc_lines::usage_line;
use xc_verify::laws::acceptance_proves;

/// Does what the words ask for, over the files of the shelf, and writes the answer to the sink in one put.
///
/// The words are those after the program's name. Accepted are
///
/// - `sum MODE REPORT TOTAL TERM...` with one TERM or more: TOTAL is the name `prefix:local` of a concept; a TERM is
///   `+` or `-` and such a name;
/// - `check [--old-arcs] MODE REPORT DOC...` with one DOC or more;
/// - `verify [--old-arcs] MODE CERTIFICATE REPORT DOC...` with one DOC or more;
/// - `sample N`, where N is digits without a leading zero, from 2 to 100000.
///
/// MODE is `rounding` or `truncation`. CERTIFICATE, REPORT and each DOC are names of files, not empty and without `-` at their
/// heads.
pub fn run<S: Shelf, O: Sink>(alloc: Global, words: &[String], shelf: &mut S, out: &mut O) -> Status
    // What is written is the answer of the words and the files, and the status is the answer's.
    ensures answer { IfSome (S.held shelf.old) (λ files. IsAnswered result →
        (text : List ℕ) × IsAnswerOf (texts words.now) files (make_answer result text)
        × Appends (O.written out.old) (O.written out.new) text) }

    // Where `verify` ends soundly, the certificate proves what it claims of the report, whoever wrote it.
    ensures proven { IfSome (S.held shelf.old) (λ files. (verify : VerifyWords) → words_of (texts words.now) ≡ Some (VerifyOf verify) →
        result ≡ Status.Sound → IsProven verify files) }

    // There is no other: words and files tell whether there is a refusal and which, the findings and the status, whatever
    // numbers names get on the way. The whole text is one but where `check` judges: there the first line of the joint part
    // is, and another certificate, or other causes, may stand behind it.
    ensures one { AnswersAreOne }

    // What `check` wrote with a joint part that is feasible or infeasible, `verify` accepts over the same report and documents.
    ensures verified { SettledIsAccepted }

    // Where all components without an empty point are narrow forests, and the constants of empty points fit, `check` always settles.
    ensures forests { ForestsAreSettled }

    // Only where the files that the words name are held, up to one that is too long.
    ensures held { IfSome (S.held shelf.old) (λ files. IsAnswered result →
        HasFiles (words_of (texts words.now)) files) }

    // Usage exactly where the words are not accepted.
    ensures usage { words_of (texts words.now) ≡ None → (result ≡ Status.Usage) ⊎ (result ≡ Status.WriteFault) }
    ensures usage_line { result ≡ Status.Usage → (words_of (texts words.now) ≡ None)
        × Appends (O.written out.old) (O.written out.new) usage_line }

    // A read fault comes only where the shelf's count rose, over a steady shelf only where a file is not held.
    ensures read { result ≡ Status.ReadFault → Rose (S.faults shelf.old) (S.faults shelf.new) }
    ensures read_line { result ≡ Status.ReadFault → (line : List ℕ) × IsReadFaultLine (words_of (texts words.now)) line
        × Appends (O.written out.old) (O.written out.new) line }
    ensures read_steady { S.steady shelf.old ≡ true → IfSome (S.held shelf.old) (λ files. result ≡ Status.ReadFault →
        (text : List ℕ) × IsAnswerOf (texts words.now) files (make_answer result text)
        × Appends (O.written out.old) (O.written out.new) text) }
    ensures lacking { S.steady shelf.old ≡ true → IfSome (S.held shelf.old) (λ files. result ≡ Status.ReadFault →
        LacksFile files (files_named (words_of (texts words.now)))) }

    // An answer comes only where no fetch failed, and any ending but a write fault only where no put did.
    ensures fetched { IsAnswered result → S.faults shelf.new ≡ S.faults shelf.old }
    ensures put { result ≢ Status.WriteFault → O.faults out.new ≡ O.faults out.old }

    // There are no more fetches than file words, and all is written in one put; where memory is wanting there is none.
    ensures fetches { S.fetches shelf.new ≤ S.fetches shelf.old + length (files_named (words_of (texts words.now))) }
    ensures puts { result ≢ Status.Memory → O.puts out.new ≡ next_count (O.puts out.old) }
    ensures no_put { result ≡ Status.Memory → O.puts out.new ≡ O.puts out.old }

    // The shelf holds what it held, and stays steady.
    ensures same { S.held shelf.new ≡ S.held shelf.old }
    ensures stays { S.steady shelf.old ≡ true → S.steady shelf.new ≡ true }
    ensures later { S.faults shelf.old ≤ S.faults shelf.new }

    // A write fault comes only where the sink's count rose, and leaves a beginning of what was to be written.
    ensures write { result ≡ Status.WriteFault → Rose (O.faults out.old) (O.faults out.new) }
    ensures part { IfSome (S.held shelf.old) (λ files. result ≡ Status.WriteFault →
        (answer : Answer) × (IsAnswerOf (texts words.now) files answer ⊎ IsReadFaultLine (words_of (texts words.now)) answer.text)
        × AppendsPart (O.room out.old) (O.written out.old) (O.written out.new) answer.text) }

    // Want of memory leaves nothing.
    ensures memory { result ≡ Status.Memory → Keeps (O.written out.old) (O.written out.new) }

    // Where nothing fails there is an answer, and where nothing is refused the bindings are judged.
    ensures completes { IfSome (S.held shelf.old) (λ files. ¬ Rose (S.faults shelf.old) (S.faults shelf.new) →
        ¬ Rose (O.faults out.old) (O.faults out.new) →
        (result ≡ Status.Memory) ⊎ ((answer : Answer) × IsAnswerOf (texts words.now) files answer × (result ≡ answer.status))) }
    ensures settles { IfSome (S.held shelf.old) (λ files. ¬ Rose (S.faults shelf.old) (S.faults shelf.new) →
        ¬ Rose (O.faults out.old) (O.faults out.new) → IsUnrefused (texts words.now) files →
        (result ≡ Status.Memory) ⊎ IsJudged result) }
{
    answers_are_one();
    settled_is_accepted();
    forests_are_settled();
    acceptance_proves();
    let Some(command) = read_words(words) else {
        return write_text(out, usage_line().as_bytes(), Status::Usage);
    };
    match answer_command(alloc, &command, shelf) {
        Ok(answer) => write_text(out, answer.text.as_slice(), answer.status),
        Err(_) => Status::Memory,
    }
}

// Writes all that a run writes, in one put.
fn write_text<O: Sink>(out: &mut O, text: &[u8], status: Status) -> Status
    requires { status ≢ Status.WriteFault }
    ensures written { result ≢ Status.WriteFault → (result ≡ status) × Appends (O.written out.old) (O.written out.new) text.now }
    ensures fault { result ≡ Status.WriteFault → Rose (O.faults out.old) (O.faults out.new) }
    ensures part { result ≡ Status.WriteFault →
        AppendsPart (O.room out.old) (O.written out.old) (O.written out.new) text.now }
    ensures worked { result ≢ Status.WriteFault → O.faults out.new ≡ O.faults out.old }
    ensures counted { O.puts out.new ≡ next_count (O.puts out.old) }
{
    match out.put(text) {
        Ok(()) => status,
        Err(SinkFault::Failed) => Status::WriteFault,
    }
}
