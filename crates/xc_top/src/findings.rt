// What is found of a report: its data points and bindings, their verdicts, and the lines of these.
ghost use Rattle.std.specs.Prelude.{◌≡◌, ◌*◌, ◌≤◌, All, IfOk, false, length};
ghost use Rattle.xc_bind.specs.Bindings.{bindings_of};
ghost use Rattle.xc_bind.specs.Placed.{IsPlaced};
ghost use Rattle.xc_points.specs.Gathered.{ArePoints};
ghost use Rattle.xc_top.specs.Findings.{IsFindings};
ghost use Rattle.xc_top.specs.Contents.{are_too_many};
ghost use Rattle.xc_top.specs.Steps.Joined.{HasVerdicts};
ghost use Rattle.xc_top.specs.Steps.Stops.{IsSettled};

use crate::status::Answer;
use crate::verdicts::{any_too_wide, has_finding, status_by, verdicts_of};
use std::alloc::Global;
use xc_bind::{Binding, bindings};
use xc_calc::Network;
use xc_interval::Mode;
use xc_lines::laws::points_carry_facts;
use xc_lists::{Items, Memory};
use xc_points::{Points, points};
use xc_report::Report;

/// What is found of a report. The verdicts are let go once their lines are there.
#[derive(Drop)]
pub struct Findings {
    pub points: Points,
    pub bindings: Vec<Binding>,
    /// The lines of all these.
    pub lines: Vec<u8>,
    /// A total disagrees, or no value satisfies a data point.
    pub disagrees: bool,
    /// A binding is too wide.
    pub too_wide: bool,
}

/// What is found of a report's facts over networks.
pub fn findings_of(
    alloc: Global,
    mode: Mode,
    report: &Report,
    networks: &[Network],
) -> Result<Findings, Memory>
    requires { are_too_many (length report.now.facts) (length networks.now) ≡ false }
    ensures points { IfOk result (λ findings. ArePoints mode report.now.facts findings.points) }
    ensures bindings { IfOk result (λ findings. findings.bindings.items ≡ bindings_of networks.now findings.points.points) }
    ensures placed { IfOk result (λ findings. All (IsPlaced findings.points.points) findings.bindings.items) }
    ensures few_points { IfOk result (λ findings. length findings.points.points ≤ length report.now.facts) }
    ensures few_bindings { IfOk result (λ findings. length findings.bindings.items ≤ length networks.now * length findings.points.points) }
    ensures verdicts { IfOk result (HasVerdicts mode networks.now report.now.facts) }
{
    // The numbers in the points are those of the report's facts.
    points_carry_facts();
    let points = points(alloc, report, mode)?;
    let list = points.as_slice();
    let bindings = bindings(alloc, networks, &points)?;
    let verdicts = verdicts_of(alloc, &bindings, &points)?;
    let lines = xc_lines::findings(alloc, report, &points, networks, &bindings, &verdicts, mode)?;
    let disagrees = has_finding(list, &verdicts);
    let too_wide = any_too_wide(&verdicts);
    Ok(Findings {
        points,
        bindings,
        lines,
        disagrees,
        too_wide,
    })
}

/// The findings of a report.
pub fn answer_findings(
    alloc: Global,
    mode: Mode,
    report: &Report,
    networks: &[Network],
) -> Result<Answer, Memory>
    requires { are_too_many (length report.now.facts) (length networks.now) ≡ false }
    ensures answer { IfOk result (IsFindings mode networks.now report.now.facts) }
    ensures settles { IfOk result (λ answer. IsSettled answer.status) }
{
    let findings = findings_of(alloc, mode, report, networks)?;
    Ok(Answer {
        status: status_by(findings.disagrees, findings.too_wide),
        text: Items::of(findings.lines),
    })
}
