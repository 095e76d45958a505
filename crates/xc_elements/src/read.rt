// The tree of a document, or its first fault.
ghost use Rattle.std.specs.Prelude.{◌≡◌, ◌<◌, ◌^◌, IfOk, IfErr, length};
ghost use Rattle.xc_elements.specs.DocumentTrees.{IsTreeOf, IsRefusal};

use crate::documents::{no_item_fault, text_of};
use crate::fault::TreeFault;
use crate::items::item_at;
use crate::reader::Reader;
use crate::texts::is_nothing;
use crate::trees::Tree;
use std::alloc::Global;

/// The tree of a document's elements, or its first fault.
///
/// A document is UTF-8, with or without a byte order mark, of fewer than 2^32 bytes. It has no document type, and at
/// most 127 elements inside one another. Its tags nest and its prefixes are declared as XML 1.0 and Namespaces in XML
/// 1.0 have it. That `]]>` does not stand in a text, and that a declaration has a `version`, is not asked.
pub fn read_tree(alloc: Global, bytes: &[u8]) -> Result<Tree, TreeFault>
    requires { length bytes.now < 2 ^ 32 }
    ensures tree { IfOk result (λ tree. IsTreeOf bytes.now tree) }
    ensures fault { IfErr result (λ fault. IsRefusal bytes.now fault) }
{
    let text = text_of(bytes)?;
    let mut reader = Reader::new(alloc);
    let mut rest = text;
    let mut is_first = true;
    while !is_nothing(rest) {
        let place = (bytes.len() - rest.len()) as u64;
        let Some((item, after)) = item_at(rest, is_first) else {
            return Err(no_item_fault(place, rest));
        };
        if let Err(refusal) = reader.read_item(alloc, item) {
            return Err(refusal.fault_at(place));
        }
        rest = after;
        is_first = false;
    }
    if reader.is_unfinished() {
        return Err(TreeFault::Unbalanced(bytes.len() as u64));
    }
    Ok(Tree::of(reader.nodes))
}
