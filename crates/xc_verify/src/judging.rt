// The judgement of a certificate.
ghost use Rattle.std.specs.Prelude.{◌≡◌, ◌≤◌, ◌⊎◌, length};
ghost use Rattle.xc_verify.specs.Judgements.{IsJudgement, IsTooWide, NamesKnown, Proves};

use crate::types::{Judgement, judgement_of};
use crate::{feasible, infeasible};
use xc_system::laws::contradictions_exclude;
use xc_system::{Certificate, Scratch, System};

/// Whether a certificate proves what it claims of the system: that its values solve it, or that its multipliers
/// contradict it. Whoever wrote it, `Accepted` is a proof, and a proof is accepted, unless an operation passes 128 bits.
/// Anything else than `Accepted` says what was met first, in a fixed order.
///
/// It takes no memory beyond the scratch, which was made for at least the system's points, and goes once through the
/// certificate and through the entries of the equations that it lists.
pub fn verify(system: &System, certificate: &Certificate, scratch: &mut Scratch) -> Judgement
    requires sums { system.now.points ≤ length scratch.old.sums }
    requires stops { system.now.points ≤ length scratch.old.stops }
    ensures judgement { IsJudgement system.now certificate.now result }
    ensures accepted { result ≡ Judgement.Accepted → Proves system.now certificate.now }
    ensures proof { Proves system.now certificate.now → (result ≡ Judgement.Accepted) ⊎ IsTooWide result }
    ensures known { NamesKnown system.now result }
    ensures sums { length scratch.new.sums ≡ length scratch.old.sums }
    ensures stops { length scratch.new.stops ≡ length scratch.old.stops }
    ensures marks { scratch.new.marks ≡ scratch.old.marks }
{
    contradictions_exclude();
    match certificate {
        Certificate::Feasible(values) => judgement_of(feasible::values_objection(
            system,
            values.as_slice(),
        )),
        Certificate::Infeasible(refutation) => judgement_of(infeasible::refutation_objection(
            system,
            refutation,
            scratch.sums.as_mut_slice(),
            scratch.stops.as_mut_slice(),
        )),
    }
}
