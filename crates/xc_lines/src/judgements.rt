// The line of a certificate's judgement.
ghost use Rattle.std.specs.Prelude.{◌≡◌, ◌<◌, ◌++◌, IfOk, OnOk, codes, decimal, length, string_bytes};
ghost use Rattle.xc_lines.specs.Judgements.{NamesFact, claim, fact_id, judgement_line, op_word, what_words, wide_words};
ghost use Rattle.xc_lines.specs.Lines.{printed_text};

use crate::texts::{push_number, push_text};
use std::alloc::{AllocError, Global};
use xc_decimal::write_frac;
use xc_frac::{Op, Wide};
use xc_lists::Memory;
use xc_report::{Fact, Report};
use xc_system::Certificate;
use xc_verify::{Judgement, What};

/// The line of a certificate's judgement over the system of a report: that it is accepted, as feasible or infeasible;
/// or what it misses; or what is too wide, a fact with its id, or an operation with its operands. The only error is want
/// of memory.
pub fn judgement_line(
    alloc: Global,
    report: &Report,
    certificate: &Certificate,
    judgement: &Judgement,
) -> Result<Vec<u8>, Memory>
    requires { NamesFact report.now.facts judgement.now }
    ensures { IfOk result (λ out. out.items ≡ judgement_line report.now.facts certificate.now judgement.now) }
{
    match *judgement {
        Judgement::Accepted => Ok(accepted_line(alloc, certificate)?.into_bytes()),
        Judgement::Misses(what) => Ok(misses_line(alloc, what)?.into_bytes()),
        Judgement::WideFact(number) => {
            let id = fact_id(report.facts.as_slice(), number);
            Ok(wide_fact_line(alloc, number, id)?.into_bytes())
        }
        Judgement::TooWide(what, wide) => too_wide_line(alloc, what, wide),
    }
}

// The id of a fact, by its number.
pub(crate) fn fact_id(facts: &[Fact], number: u32) -> &str
    requires { number < length facts.now }
    ensures { result.now ≡ fact_id facts.now number }
{
    facts[number as usize].id.as_str()
}

fn accepted_line(alloc: Global, certificate: &Certificate) -> Result<String, AllocError>
    ensures { IfOk result (λ line. string_bytes line ≡ codes "accepted " ++ claim certificate.now ++ codes "\n") }
{
    let mut line = String::from_str(alloc, "accepted ")?;
    line.push_str(claim(certificate))?;
    line.push_str("\n")?;
    Ok(line)
}

fn claim(certificate: &Certificate) -> &'static str
    ensures { result.now ≡ claim certificate.now }
{
    match certificate {
        Certificate::Feasible(_) => "feasible",
        Certificate::Infeasible(_) => "infeasible",
    }
}

fn misses_line(alloc: Global, what: What) -> Result<String, AllocError>
    ensures { IfOk result (λ line. string_bytes line ≡ codes "misses " ++ what_words what ++ codes "\n") }
{
    let mut line = String::from_str(alloc, "misses ")?;
    push_what(&mut line, what)?;
    line.push_str("\n")?;
    Ok(line)
}

fn wide_fact_line(alloc: Global, number: u32, id: &str) -> Result<String, AllocError>
    ensures { IfOk result (λ line. string_bytes line ≡ codes "too-wide fact " ++ decimal number ++ codes " " ++ printed_text id.now ++ codes "\n") }
{
    let mut line = String::from_str(alloc, "too-wide fact ")?;
    push_number(&mut line, number as usize)?;
    line.push_str(" ")?;
    push_text(&mut line, id)?;
    line.push_str("\n")?;
    Ok(line)
}

fn too_wide_line(alloc: Global, what: What, wide: Wide) -> Result<Vec<u8>, Memory>
    ensures { IfOk result (λ out. out.items ≡ codes "too-wide " ++ what_words what ++ codes " " ++ wide_words wide ++ codes "\n") }
{
    let mut head = String::from_str(alloc, "too-wide ")?;
    push_what(&mut head, what)?;
    head.push_str(" ")?;
    let mut line = head.into_bytes();
    push_wide(alloc, &mut line, wide)?;
    line.push(b'\n')?;
    Ok(line)
}

// Appends what a judgement speaks of.
fn push_what(out: &mut String, what: What) -> Result<(), AllocError>
    ensures { OnOk result (string_bytes out.new ≡ string_bytes out.old ++ what_words what) }
{
    match what {
        What::Point(number) => push_numbered(out, "point ", number),
        What::Binding(number) => push_numbered(out, "binding ", number),
        What::Fact(number) => push_numbered(out, "fact ", number),
        What::Constant => out.push_str("constant"),
    }
}

fn push_numbered(out: &mut String, word: &str, number: u32) -> Result<(), AllocError>
    ensures { OnOk result (string_bytes out.new ≡ string_bytes out.old ++ (word.now ++ decimal number)) }
{
    out.push_str(word)?;
    push_number(out, number as usize)
}

/// Appends an operation with its operands.
pub(crate) fn push_wide(alloc: Global, out: &mut Vec<u8>, wide: Wide) -> Result<(), Memory>
    ensures { OnOk result (out.new.items ≡ out.old.items ++ wide_words wide) }
{
    out.extend_from_slice(op_word(wide.op).as_bytes())?;
    out.push(b' ')?;
    write_frac(alloc, out, wide.left)?;
    out.push(b' ')?;
    write_frac(alloc, out, wide.right)
}

fn op_word(op: Op) -> &'static str
    ensures { result.now ≡ op_word op }
{
    match op {
        Op::Add => "add",
        Op::Sub => "sub",
        Op::Mul => "mul",
        Op::Div => "div",
    }
}
