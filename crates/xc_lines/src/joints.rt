// What is written of all data points together.
ghost use Rattle.std.specs.Prelude.{◌≡◌, ◌<◌, ◌++◌, All, IfOk, OnOk, codes, decimal, length, string_bytes};
ghost use Rattle.std.specs.List.{enumerate_from};
ghost use Rattle.xc_lines.specs.Joints.{IsWritable, NamesFactOf, cause_line, corner_words, joint_lines, number_words, part_line, part_lines};
ghost use Rattle.xc_lines.specs.Judgements.{fact_id, wide_words};
ghost use Rattle.xc_lines.specs.Lines.{printed_text};
ghost use Rattle.xc_joint.specs.declared.types.Part.TheVariants as part;

use crate::judgements::{fact_id, push_wide};
use crate::settled::settled_lines;
use crate::texts::{push_number, push_text};
use std::alloc::{AllocError, Global};
use xc_corners::Corner;
use xc_frac::Wide;
use xc_joint::{Cause, Joint, Part};
use xc_lists::Memory;
use xc_report::{Fact, Report};

/// The joint part of an output: where all is settled, which of the two, the facts that a refutation names, and the
/// certificate; and otherwise for each component without an answer the cause of that. The only error is want of memory.
pub fn joint_lines(alloc: Global, report: &Report, joint: &Joint) -> Result<Vec<u8>, Memory>
    requires { IsWritable report.now.facts joint.now }
    ensures { IfOk result (λ out. out.items ≡ joint_lines report.now.facts joint.now) }
{
    match joint {
        Joint::Settled(certificate) => settled_lines(alloc, report, certificate),
        Joint::TooWide(parts) => unsettled_lines(alloc, report.facts.as_slice(), parts.as_slice()),
    }
}

// The lines where some component has no answer.
fn unsettled_lines(alloc: Global, facts: &[Fact], parts: &[Part]) -> Result<Vec<u8>, Memory>
    requires { All (NamesFactOf facts.now) parts.now }
    ensures { IfOk result (λ out. out.items ≡ codes "joint too-wide\n" ++ part_lines facts.now (enumerate_from 0 parts.now)) }
{
    let mut out = String::from_str(alloc, "joint too-wide\n")?.into_bytes();
    push_parts(alloc, &mut out, facts, parts)?;
    Ok(out)
}

// The line of each component without an answer.
fn push_parts(
    alloc: Global,
    out: &mut Vec<u8>,
    facts: &[Fact],
    parts: &[Part],
) -> Result<(), Memory>
    requires { All (NamesFactOf facts.now) parts.now }
    ensures { OnOk result (out.new.items ≡ out.old.items ++ part_lines facts.now (enumerate_from 0 parts.now)) }
{
    for (number, part) in parts.iter().enumerate() {
        push_part(alloc, out, facts, number, part)?;
    }
    Ok(())
}

// The line of a component, where it has no answer.
fn push_part(
    alloc: Global,
    out: &mut Vec<u8>,
    facts: &[Fact],
    number: usize,
    part: &Part,
) -> Result<(), Memory>
    requires { NamesFactOf facts.now part.now }
    ensures { OnOk result (out.new.items ≡ out.old.items ++ part_line facts.now number part.now) }
{
    match part {
        Part::Values(_) => Ok(()),
        Part::Wide(cause) => push_cause(alloc, out, facts, number, cause),
    }
}

// Why a component has no answer.
fn push_cause(
    alloc: Global,
    out: &mut Vec<u8>,
    facts: &[Fact],
    number: usize,
    cause: &Cause,
) -> Result<(), Memory>
    requires { NamesFactOf facts.now (part.Wide cause.now) }
    ensures { OnOk result (out.new.items ≡ out.old.items ++ cause_line facts.now number cause.now) }
{
    match cause {
        Cause::Fact(fact) => {
            let line = component_wide_fact_line(alloc, number, *fact, fact_id(facts, *fact))?;
            Ok(out.extend_from_slice(line.as_bytes())?)
        }
        Cause::Ends(low, high, wide) => {
            let head = ends_head(alloc, number, *low, *high)?;
            push_operation(alloc, out, &head, *wide)
        }
        Cause::Corner(corner, wide) => {
            let head = corner_head(alloc, number, corner)?;
            push_operation(alloc, out, &head, *wide)
        }
    }
}

// Appends a line that ends in an operation, with what stands before it.
fn push_operation(alloc: Global, out: &mut Vec<u8>, head: &str, wide: Wide) -> Result<(), Memory>
    ensures { OnOk result (out.new.items ≡ out.old.items ++ (head.now ++ wide_words wide ++ codes "\n")) }
{
    out.extend_from_slice(head.as_bytes())?;
    push_wide(alloc, out, wide)?;
    Ok(out.push(b'\n')?)
}

fn component_wide_fact_line(
    alloc: Global,
    number: usize,
    fact: u32,
    id: &str,
) -> Result<String, AllocError>
    ensures { IfOk result (λ line. string_bytes line ≡ codes "component " ++ decimal number ++ codes " wide-fact "
        ++ decimal fact ++ codes " " ++ printed_text id.now ++ codes "\n") }
{
    let mut line = component_head(alloc, number, " wide-fact ")?;
    push_number(&mut line, fact as usize)?;
    line.push_str(" ")?;
    push_text(&mut line, id)?;
    line.push_str("\n")?;
    Ok(line)
}

// What stands before the operation on two ends.
fn ends_head(alloc: Global, number: usize, low: u32, high: u32) -> Result<String, AllocError>
    ensures { IfOk result (λ head. string_bytes head ≡ codes "component " ++ decimal number ++ codes " ends "
        ++ decimal low ++ codes " " ++ decimal high ++ codes " op ") }
{
    let mut head = component_head(alloc, number, " ends ")?;
    push_number(&mut head, low as usize)?;
    head.push_str(" ")?;
    push_number(&mut head, high as usize)?;
    head.push_str(" op ")?;
    Ok(head)
}

// What stands before the operation at a corner.
fn corner_head(alloc: Global, number: usize, corner: &Corner) -> Result<String, AllocError>
    ensures { IfOk result (λ head. string_bytes head ≡ codes "component " ++ decimal number ++ codes " corner "
        ++ corner_words corner.now ++ codes " op ") }
{
    let mut head = component_head(alloc, number, " corner ")?;
    push_corner(&mut head, corner)?;
    head.push_str(" op ")?;
    Ok(head)
}

// Appends a corner.
fn push_corner(out: &mut String, corner: &Corner) -> Result<(), AllocError>
    ensures { OnOk result (string_bytes out.new ≡ string_bytes out.old ++ corner_words corner.now) }
{
    out.push_str("basic")?;
    push_numbers(out, corner.basic())?;
    out.push_str(" high")?;
    push_numbers(out, corner.high())
}

// Appends numbers, each behind a blank.
fn push_numbers(out: &mut String, numbers: &[u32]) -> Result<(), AllocError>
    ensures { OnOk result (string_bytes out.new ≡ string_bytes out.old ++ number_words numbers.now) }
{
    for number in numbers {
        out.push_str(" ")?;
        push_number(out, *number as usize)?;
    }
    Ok(())
}

// The beginning of the line of a component.
fn component_head(alloc: Global, number: usize, word: &str) -> Result<String, AllocError>
    ensures { IfOk result (λ head. string_bytes head ≡ codes "component " ++ decimal number ++ word.now) }
{
    let mut head = String::from_str(alloc, "component ")?;
    push_number(&mut head, number)?;
    head.push_str(word)?;
    Ok(head)
}
