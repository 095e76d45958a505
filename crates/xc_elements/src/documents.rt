// The text of a document, and what is wrong where no item stands in it.
ghost use Rattle.std.specs.Prelude.{◌≡◌, ◌++◌, ℕ, List, IfOk, IfErr};
ghost use Rattle.std.specs.Str.{chars, IsUtf8};
ghost use Rattle.xc_elements.specs.Items.{begins_doctype};
ghost use Rattle.xc_elements.specs.DocumentTrees.{IsRefusal};
ghost use Rattle.xc_elements.specs.Documents.{without_mark};
ghost use Rattle.xc_elements.specs.Steps.Refusals.{no_item_fault};

use crate::fault::TreeFault;
use crate::texts::{exactly, next_char};

/// The text of a document, without a byte order mark at its start.
#[tactic(auto, using(crate::proofs::FaultLaws::first_not_utf8))]
pub(crate) fn text_of(bytes: &[u8]) -> Result<&str, TreeFault>
    ensures utf8 { IfOk result (λ text. IsUtf8 bytes.now) }
    ensures text { IfOk result (λ text. chars text.now ≡ without_mark (chars bytes.now)) }
    ensures end { IfOk result (λ text. (mark : List ℕ) × (bytes.now ≡ mark ++ text.now)) }
    ensures fault { IfErr result (λ fault. IsRefusal bytes.now fault) }
{
    match std::str::from_utf8(bytes) {
        Ok(text) => Ok(behind_mark(text)),
        Err(error) => Err(TreeFault::NotUtf8(error.valid_up_to() as u64)),
    }
}

fn behind_mark(text: &str) -> &str
    ensures text { chars result.now ≡ without_mark (chars text.now) }
    ensures end { (mark : List ℕ) × (text.now ≡ mark ++ result.now) }
{
    match next_char(text) {
        Some((c, rest)) => { if c == '\u{FEFF}' { rest } else { text } }
        None => text,
    }
}

/// The fault of a text that begins with no item and stands at this place of its document.
pub(crate) fn no_item_fault(place: u64, text: &str) -> TreeFault
    ensures { result ≡ no_item_fault place (chars text.now) }
{
    if begins_doctype(text) {
        TreeFault::Doctype(place)
    } else {
        TreeFault::NotItem(place)
    }
}

fn begins_doctype(text: &str) -> bool
    ensures { result ≡ begins_doctype (chars text.now) }
{
    exactly(text, &['<', '!', 'D', 'O', 'C', 'T', 'Y', 'P', 'E']).is_some()
}
