// What is written where the joint question is settled.
ghost use Rattle.std.specs.Prelude.{◌≡◌, ◌++◌, ◌||◌, [], IfOk, OnOk, codes, string_bytes, if◌then◌else◌};
ghost use Rattle.std.specs.List.{enumerate_from};
ghost use Rattle.xc_cert.specs.Certificates.{HasFewValues, IsCertificate, certificate_text};
ghost use Rattle.xc_lines.specs.Settled.{because_line, because_lines, settled_lines};
ghost use Rattle.xc_lines.specs.Steps.Named.{take_number};

use crate::texts::{push_number, push_text};
use std::alloc::{AllocError, Global};
use xc_cert::write_certificate;
use xc_frac::Frac;
use xc_lists::Memory;
use xc_report::{Fact, Report};
use xc_system::{Certificate, Refutation};

/// The lines where all data points together have values, or are shown to have none: which of the two, the
/// facts that a refutation names, and the certificate, which `xc_cert::read_certificate` reads back. The only
/// error is want of memory.
pub fn settled_lines(
    alloc: Global,
    report: &Report,
    certificate: &Certificate,
) -> Result<Vec<u8>, Memory>
    requires { HasFewValues certificate.now }
    ensures lines { IfOk result (λ out. out.items ≡ settled_lines report.now.facts certificate.now) }
    ensures sound { OnOk result (IsCertificate certificate.now) }
{
    let head = head_lines(alloc, report.facts.as_slice(), certificate)?;
    let mut out = head.into_bytes();
    write_certificate(alloc, &mut out, certificate)?;
    Ok(out)
}

// The lines before the certificate.
fn head_lines(
    alloc: Global,
    facts: &[Fact],
    certificate: &Certificate,
) -> Result<String, AllocError>
    ensures { IfOk result (λ head. settled_lines facts.now certificate.now ≡ string_bytes head ++ certificate_text certificate.now) }
{
    match certificate {
        Certificate::Feasible(_) => String::from_str(alloc, "joint feasible\n"),
        Certificate::Infeasible(refutation) => refuted_lines(alloc, facts, refutation),
    }
}

// That no values exist, and because of which facts.
fn refuted_lines(
    alloc: Global,
    facts: &[Fact],
    refutation: &Refutation,
) -> Result<String, AllocError>
    ensures { IfOk result (λ head. string_bytes head ≡ codes "joint infeasible\n" ++ because_lines refutation.now (enumerate_from 0 facts.now)) }
{
    let mut out = String::from_str(alloc, "joint infeasible\n")?;
    push_because(&mut out, facts, refutation)?;
    Ok(out)
}

// A line for each fact that a refutation names, in order.
fn push_because(out: &mut String, facts: &[Fact], refutation: &Refutation) -> Result<(), AllocError>
    ensures { OnOk result (string_bytes out.new ≡ string_bytes out.old ++ because_lines refutation.now (enumerate_from 0 facts.now)) }
{
    let mut lows = refutation.lows();
    let mut highs = refutation.highs();
    for (number, fact) in facts.iter().enumerate() {
        let (is_low, lows_left) = take_number(lows, number);
        let (is_high, highs_left) = take_number(highs, number);
        push_if_named(out, either(is_low, is_high), number, fact.id.as_str())?;
        lows = lows_left;
        highs = highs_left;
    }
    Ok(())
}

// Whether the first is of this number, and what is left then.
fn take_number(listed: &[(u32, Frac)], number: usize) -> (bool, &[(u32, Frac)])
    ensures named { result.0 ≡ (take_number listed.now number).0 }
    ensures left { result.1.now ≡ (take_number listed.now number).1 }
{
    let Some((first, rest)) = listed.split_first() else {
        return (false, listed);
    };
    if first.0 as usize == number {
        return (true, rest);
    }
    (false, listed)
}

fn either(one: bool, other: bool) -> bool
    ensures { result ≡ (one || other) }
{
    one || other
}

// The line of a fact, where it is named.
fn push_if_named(
    out: &mut String,
    is_named: bool,
    number: usize,
    id: &str,
) -> Result<(), AllocError>
    ensures { OnOk result (string_bytes out.new ≡ string_bytes out.old ++ (if is_named then because_line number id.now else [])) }
{
    if is_named {
        push_because_line(out, number, id)
    } else {
        Ok(())
    }
}

fn push_because_line(out: &mut String, number: usize, id: &str) -> Result<(), AllocError>
    ensures { OnOk result (string_bytes out.new ≡ string_bytes out.old ++ because_line number id.now) }
{
    out.push_str("because fact ")?;
    push_number(out, number)?;
    out.push_str(" ")?;
    push_text(out, id)?;
    out.push_str("\n")?;
    Ok(())
}
