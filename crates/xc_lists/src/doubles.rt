// Pairs of texts of which two are equal.
ghost use Rattle.std.specs.Prelude.{◌≡◌, IfOk, map};
ghost use Rattle.xc_lists.specs.Doubles.{has_same, has_equal, lent_texts, are_same_texts};

use crate::memory::Memory;
use std::alloc::Global;
use std::collections::BTreeSet;

/// Two texts, as the namespace and the local part of a name.
#[derive(Clone, Copy, PartialEq, Eq, PartialOrd, Ord)]
pub struct TextPair<'a> {
    pub first: &'a str,
    pub second: &'a str,
}

/// Whether two of the pairs have the same texts. However many there are, no two of them are compared one by one.
pub fn has_equal_pairs(alloc: Global, pairs: &[TextPair<'_>]) -> Result<bool, Memory>
    ensures { IfOk result (λ answer. answer ≡ has_same are_same_texts (map lent_texts pairs.now)) }
{
    has_equal(alloc, pairs)
}

// Whether two of the keys are equal.
fn has_equal<K: Ord + Copy>(alloc: Global, keys: &[K]) -> Result<bool, Memory>
    ensures { IfOk result (λ answer. answer ≡ has_equal K.cmp keys.now) }
{
    let mut seen = BTreeSet::new(alloc);
    for key in keys {
        if !seen.insert(*key)? {
            return Ok(true);
        }
    }
    Ok(false)
}
