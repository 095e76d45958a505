// Certificates written as texts.
ghost use Rattle.std.specs.Prelude.{◌≡◌, ◌≤◌, ◌<◌, ◌^◌, ◌++◌, OnOk, OnErr, IfOk, length, codes};
ghost use Rattle.std.specs.List.{enumerate_from};
ghost use Rattle.xc_cert.specs.Certificates.{AreNumbers, HasFewValues, IsCertificate, body_lines, certificate_text, numbered_line, numbered_lines};
ghost use Rattle.xc_lists.specs.TextLines.{text_of};
ghost use Rattle.xc_system.specs.declared.types.Certificate.TheVariants as certificate;

use std::alloc::Global;
use xc_decimal::write_frac;
use xc_frac::Frac;
use xc_lists::Memory;
use xc_system::{Certificate, Refutation};

/// Appends the text of a certificate, from the line `certificate 1` on: `read_certificate` reads it back,
/// whatever lines but `certificate 1` stand before. After want of memory `out` is as before.
pub fn write_certificate(
    alloc: Global,
    out: &mut Vec<u8>,
    certificate: &Certificate,
) -> Result<(), Memory>
    requires { HasFewValues certificate.now }
    ensures written { OnOk result (out.new.items ≡ out.old.items ++ certificate_text certificate.now) }
    ensures sound { OnOk result (IsCertificate certificate.now) }
    ensures kept { OnErr result (out.new.items ≡ out.old.items) }
{
    let text = certificate_text(alloc, certificate)?;
    out.extend_from_slice(text.as_slice())?;
    Ok(())
}

// The text of a certificate.
fn certificate_text(alloc: Global, certificate: &Certificate) -> Result<Vec<u8>, Memory>
    requires { HasFewValues certificate.now }
    ensures text { IfOk result (λ text. text.items ≡ certificate_text certificate.now) }
    ensures sound { OnOk result (IsCertificate certificate.now) }
{
    let mut out = Vec::new(alloc);
    out.extend_from_slice(b"certificate 1\n")?;
    push_body(alloc, &mut out, certificate)?;
    out.extend_from_slice(b"end\n")?;
    Ok(out)
}

// What a certificate claims.
fn push_body(alloc: Global, out: &mut Vec<u8>, certificate: &Certificate) -> Result<(), Memory>
    requires { HasFewValues certificate.now }
    ensures text { OnOk result (out.new.items ≡ out.old.items ++ text_of (body_lines certificate.now)) }
    ensures sound { OnOk result (IsCertificate certificate.now) }
{
    match certificate {
        Certificate::Feasible(values) => push_values(alloc, out, values.as_slice()),
        Certificate::Infeasible(refutation) => push_refutation(alloc, out, refutation),
    }
}

// The values of all points.
fn push_values(alloc: Global, out: &mut Vec<u8>, values: &[Frac]) -> Result<(), Memory>
    ensures { OnOk result (out.new.items ≡ out.old.items ++ text_of (body_lines (certificate.Feasible values.now))) }
{
    out.extend_from_slice(b"feasible\n")?;
    for (number, value) in values.iter().enumerate() {
        push_line(alloc, out, b"value", number, *value)?;
    }
    Ok(())
}

// The multipliers of a refutation.
fn push_refutation(alloc: Global, out: &mut Vec<u8>, refutation: &Refutation) -> Result<(), Memory>
    ensures text { OnOk result (out.new.items ≡ out.old.items ++ text_of (body_lines (certificate.Infeasible refutation.now))) }
    ensures sound { OnOk result (IsCertificate (certificate.Infeasible refutation.now)) }
{
    out.extend_from_slice(b"infeasible\n")?;
    push_listed(alloc, out, b"binding", refutation.bindings())?;
    push_listed(alloc, out, b"low", refutation.lows())?;
    push_listed(alloc, out, b"high", refutation.highs())
}

// Multipliers, a line for each.
fn push_listed(
    alloc: Global,
    out: &mut Vec<u8>,
    word: &[u8],
    listed: &[(u32, Frac)],
) -> Result<(), Memory>
    ensures text { OnOk result (out.new.items ≡ out.old.items ++ text_of (numbered_lines word.now listed.now)) }
    ensures numbers { OnOk result (AreNumbers listed.now) }
{
    for (number, multiplier) in listed {
        push_line(alloc, out, word, *number as usize, *multiplier)?;
    }
    Ok(())
}

// A word, a number and a fraction.
fn push_line(
    alloc: Global,
    out: &mut Vec<u8>,
    word: &[u8],
    number: usize,
    fraction: Frac,
) -> Result<(), Memory>
    ensures { OnOk result (out.new.items ≡ out.old.items ++ (numbered_line word.now (number, fraction) ++ codes "\n")) }
{
    out.extend_from_slice(word)?;
    let number = format!(in alloc; " {} ", number)?;
    out.extend_from_slice(number.as_bytes())?;
    write_frac(alloc, out, fraction)?;
    out.push(b'\n')?;
    Ok(())
}
