// The findings of a report, with what is said of all its data points together.
ghost use Rattle.std.specs.Prelude.{◌≡◌, ◌||◌, IfOk, false, length};
ghost use Rattle.xc_joint.specs.Kinds.{kind_of};
ghost use Rattle.xc_top.specs.Findings.{IsJointFindings, is_caused, is_contradicted};
ghost use Rattle.xc_top.specs.Contents.{are_too_many};
ghost use Rattle.xc_top.specs.Steps.Joined.{IsPartOf, status_by};
ghost use Rattle.xc_top.specs.Steps.Stops.{IsSettled};

use crate::findings::findings_of;
use crate::status::{Answer, Status};
use crate::verdicts::status_by;
use std::alloc::Global;
use xc_bind::system;
use xc_calc::Network;
use xc_interval::Mode;
use xc_joint::{Joint, settle};
use xc_lines::joint_lines;
use xc_lists::{Items, Memory};
use xc_report::Report;
use xc_system::{Certificate, System};

/// The findings of a report, and behind them the joint part. All but the facts, whose ids that part names, and the
/// system is let go before the joint question is settled.
pub fn answer_joint(
    alloc: Global,
    mode: Mode,
    report: &Report,
    networks: Vec<Network>,
) -> Result<Answer, Memory>
    requires { are_too_many (length report.now.facts) (length networks.items) ≡ false }
    ensures answer { IfOk result (IsJointFindings mode networks.items report.now.facts) }
    ensures settles { IfOk result (λ answer. IsSettled answer.status) }
{
    let findings = findings_of(alloc, mode, report, networks.as_slice())?;
    drop(networks);
    let system = system(alloc, &findings.points, &findings.bindings)?;
    drop(findings.points);
    drop(findings.bindings);
    let part = part_of(alloc, report, system)?;
    let status = joint_status(findings.disagrees, findings.too_wide, &part);
    let mut text = findings.lines;
    text.extend_from_slice(&part.lines)?;
    Ok(Answer {
        status,
        text: Items::of(text),
    })
}

/// What is said of all data points together.
#[derive(Drop)]
pub struct JointPart {
    pub lines: Vec<u8>,
    /// No assignment satisfies all.
    pub contradicted: bool,
    /// Some component has no answer.
    pub caused: bool,
}

// What is said of a system, which is let go once it is settled.
fn part_of(alloc: Global, report: &Report, system: System) -> Result<JointPart, Memory>
    requires { length system.bounds ≡ length report.now.facts }
    ensures { IfOk result (IsPartOf system report.now.facts) }
{
    let joint = settle(alloc, &system)?;
    // Its points are few enough for the lines of a certificate.
    let _points = system.points();
    drop(system);
    Ok(JointPart {
        lines: joint_lines(alloc, report, &joint)?,
        contradicted: is_contradicted(&joint),
        caused: is_caused(&joint),
    })
}

/// Whether no assignment satisfies all.
pub fn is_contradicted(joint: &Joint) -> bool
    ensures { result ≡ is_contradicted (kind_of joint.now) }
{
    match joint {
        Joint::Settled(Certificate::Infeasible(_)) => true,
        Joint::Settled(Certificate::Feasible(_)) => false,
        Joint::TooWide(_) => false,
    }
}

/// Whether some component has no answer.
pub fn is_caused(joint: &Joint) -> bool
    ensures { result ≡ is_caused (kind_of joint.now) }
{
    match joint {
        Joint::Settled(_) => false,
        Joint::TooWide(_) => true,
    }
}

// How the run ends: by what is found, and by what is said of all data points together.
fn joint_status(disagrees: bool, too_wide: bool, part: &JointPart) -> Status
    ensures status { result ≡ status_by (disagrees || part.now.contradicted) (too_wide || part.now.caused) }
    ensures settles { IsSettled result }
{
    status_by(disagrees || part.contradicted, too_wide || part.caused)
}
