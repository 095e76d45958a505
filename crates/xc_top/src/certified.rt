// What is answered of a certificate.
ghost use Rattle.std.specs.Prelude.{◌≡◌, IfOk, length, false};
ghost use Rattle.xc_cert.specs.Certificates.{IsTextOf};
ghost use Rattle.xc_system.specs.declared.types.Certificate.{Certificate};
ghost use Rattle.xc_top.specs.Steps.Chain.{IsCertified};
ghost use Rattle.xc_top.specs.Steps.Stops.{Answers, IfStopped, IsSettled};
ghost use Rattle.xc_top.specs.Certified.{IsNoCertificate, IsSystemIn, IsJudgedBy, judged_status};
ghost use Rattle.xc_top.specs.Contents.{are_too_many};

use crate::refusals::certificate_refusal;
use crate::status::{Answer, Status, Stop};
use std::alloc::Global;
use xc_bind::{bindings, system};
use xc_calc::Network;
use xc_cert::read_certificate;
use xc_interval::Mode;
use xc_lines::judgement_line;
use xc_lines::laws::points_carry_facts;
use xc_lists::{Items, Memory};
use xc_points::points;
use xc_report::Report;
use xc_system::{Certificate, Scratch, System};
use xc_verify::{Judgement, verify};

/// The judgement of the certificate in these bytes, of the file of this word, over the system of the report's facts;
/// or the first line of them that fits nowhere.
pub fn answer_certificate(
    alloc: Global,
    mode: Mode,
    word: &str,
    bytes: &[u8],
    report: &Report,
    networks: Vec<Network>,
) -> Result<Answer, Stop>
    requires { are_too_many (length report.now.facts) (length networks.items) ≡ false }
    ensures answer { Answers result (λ answer. IsCertified mode word.now bytes.now networks.items report.now.facts answer) }
    ensures settles { Answers result (λ answer. IsSettled answer.status) }
{
    let certificate = certificate_in(alloc, word, bytes)?;
    let system = system_in(alloc, mode, report, networks)?;
    Ok(answer_judgement(alloc, report, &certificate, &system)?)
}

// The certificate in these bytes.
fn certificate_in(alloc: Global, word: &str, bytes: &[u8]) -> Result<Certificate, Stop>
    ensures text { IfOk result (λ certificate. IsTextOf bytes.now certificate) }
    ensures refused { IfStopped result (λ answer. IsNoCertificate word.now bytes.now answer) }
    ensures status { IfStopped result (λ answer. IsSettled answer.status) }
{
    match read_certificate(alloc, bytes) {
        Ok(certificate) => Ok(certificate),
        Err(fault) => Err(certificate_refusal(alloc, word, fault)),
    }
}

// The system of the report's facts.
fn system_in(
    alloc: Global,
    mode: Mode,
    report: &Report,
    networks: Vec<Network>,
) -> Result<System, Memory>
    requires { are_too_many (length report.now.facts) (length networks.items) ≡ false }
    ensures system { IfOk result (IsSystemIn mode networks.items report.now.facts) }
{
    let points = points(alloc, report, mode)?;
    let bindings = bindings(alloc, networks.as_slice(), &points)?;
    drop(networks);
    system(alloc, &points, &bindings)
}

// What is answered of a certificate over a system.
fn answer_judgement(
    alloc: Global,
    report: &Report,
    certificate: &Certificate,
    system: &System,
) -> Result<Answer, Memory>
    requires { length system.now.bounds ≡ length report.now.facts }
    ensures answer { IfOk result (IsJudgedBy system.now certificate.now report.now.facts) }
    ensures settles { IfOk result (λ answer. IsSettled answer.status) }
{
    let mut scratch = Scratch::new(alloc, system.points())?;
    let judgement = verify(system, certificate, &mut scratch);
    let text = judgement_line(alloc, report, certificate, &judgement)?;
    Ok(Answer {
        status: judged_status(judgement),
        text: Items::of(text),
    })
}

// How the run ends: sound where the certificate is accepted.
fn judged_status(judgement: Judgement) -> Status
    ensures status { result ≡ judged_status judgement }
    ensures settles { IsSettled result }
{
    match judgement {
        Judgement::Accepted => Status::Sound,
        Judgement::Misses(_) => Status::Findings,
        Judgement::WideFact(_) | Judgement::TooWide(_, _) => Status::TooWide,
    }
}
