//! What the definitions of this crate say.
//!
//! The contract of each function is the law; its body cites the laws of the crates below.
ghost use Rattle.xc_top.specs.Laws.{AnswersAreOne, DocumentsAreOne};
ghost use Rattle.xc_top.specs.Settled.{ForestsAreSettled, SettledIsAccepted};

use xc_bind::laws::system_is_one;
use xc_calc::laws::networks_are_one;
use xc_cert::laws::{one_certificate, one_fault, text_or_fault};
use xc_elements::laws::{one_first_fault, one_tree, tree_or_fault};
use xc_joint::laws::{narrow_forests_are_settled, one_kind};
use xc_lines::laws::{findings_are_passed, findings_are_plain, one_joint_part, settled_is_text};
use xc_names::laws::{names_stand_at_numbers, numbers_tell_names};
use xc_points::laws::{one_list_of_ends, one_range};
use xc_report::laws::numbers_are_free;
use xc_verdict::laws::one_verdict;
use xc_verify::laws::{acceptance_proves, one_judgement};

/// The files of a taxonomy hold one list of documents, with their trees or first faults.
pub fn documents_are_one()
    ensures { DocumentsAreOne }
{
    one_tree();
    one_first_fault();
    tree_or_fault();
}

/// Words and files have one answer: one refusal, or the same findings and one status. The numbers that expanded names get
/// on the way, which the definitions leave free, change nothing of it. Where the joint part is asked and the bindings are
/// judged, what stands behind its first line may be another: there is more than one certificate.
pub fn answers_are_one()
    ensures { AnswersAreOne }
{
    documents_are_one();
    numbers_tell_names();
    names_stand_at_numbers();
    networks_are_one();
    numbers_are_free();
    one_range();
    one_list_of_ends();
    one_verdict();
    system_is_one();
    one_certificate();
    text_or_fault();
    one_fault();
    one_judgement();
    one_kind();
}

/// Where an answer to `check` says that the joint question is settled, `verify` accepts its text, over the same report
/// and documents.
pub fn settled_is_accepted()
    ensures { SettledIsAccepted }
{
    findings_are_passed();
    findings_are_plain();
    one_joint_part();
    settled_is_text();
    acceptance_proves();
    answers_are_one();
}

/// Where every component without an empty point is a narrow forest, and no operation passes in the constant of an empty
/// point, `check` settles the joint question, with a certificate.
pub fn forests_are_settled()
    ensures { ForestsAreSettled }
{
    findings_are_passed();
    findings_are_plain();
    one_joint_part();
    settled_is_text();
    acceptance_proves();
    narrow_forests_are_settled();
}
