// Attributes of which two have one expanded name.
ghost use Rattle.std.specs.Prelude.{◌≡◌, IfOk, map};
ghost use Rattle.xc_elements.specs.Steps.Doubles.{name_parts};
ghost use Rattle.xc_elements.specs.Namespaces.{has_double};
ghost use Rattle.xc_lists.specs.Doubles.{lent_texts};

use crate::nodes::{Attribute, value_among};
use std::alloc::Global;
use xc_lists::{Memory, TextPair, has_equal_pairs};

/// Up to so many attributes are compared in pairs, which takes no memory.
const FEW: usize = 16;

/// Looks whether two of the attributes have one expanded name. However many there are, no two of many are compared one by one.
pub(crate) fn look_for_double(alloc: Global, attributes: &[Attribute]) -> Result<bool, Memory>
    ensures { IfOk result (λ answer. answer ≡ has_double attributes.now) }
{
    if attributes.len() <= FEW {
        return Ok(has_double_of_few(attributes));
    }
    let names = names_of(alloc, attributes)?;
    has_equal_pairs(alloc, names.as_slice())
}

fn has_double_of_few(attributes: &[Attribute]) -> bool
    ensures { result ≡ has_double attributes.now }
{
    let mut rest = attributes;
    while let Some((first, others)) = rest.split_first() {
        if value_among(others, first.space.as_str(), first.local.as_str()).is_some() {
            return true;
        }
        rest = others;
    }
    false
}

fn names_of(alloc: Global, attributes: &[Attribute]) -> Result<Vec<TextPair<'_>>, Memory>
    ensures { IfOk result (λ names. map lent_texts names.items ≡ map name_parts attributes.now) }
{
    let mut names = Vec::new(alloc);
    for attribute in attributes {
        names.push(TextPair {
            first: attribute.space.as_str(),
            second: attribute.local.as_str(),
        })?;
    }
    Ok(names)
}
