// Dimensions of taxonomies of which two have one expanded name.
ghost use Rattle.std.specs.Prelude.{◌≡◌, IfOk, map};
ghost use Rattle.std.specs.List.{list_any, filter_map};
ghost use Rattle.xc_lists.specs.Doubles.{lent_texts};
ghost use Rattle.xc_report.specs.Doubles.{part_name};
ghost use Rattle.xc_report.specs.Stated.{is_same_name, has_twice};

use crate::stated::{DimensionName, StatedPart};
use std::alloc::Global;
use xc_lists::{Memory, TextPair, has_equal_pairs};

/// Up to so many parts are compared in pairs, which takes no memory.
const FEW: usize = 16;

/// Whether a dimension of a taxonomy stands twice. However many parts there are, no two of many are compared one by one.
pub(crate) fn has_twice(alloc: Global, parts: &[StatedPart]) -> Result<bool, Memory>
    ensures { IfOk result (λ answer. answer ≡ has_twice parts.now) }
{
    if parts.len() <= FEW {
        return Ok(has_twice_of_few(parts));
    }
    let names = names_of(alloc, parts)?;
    has_equal_pairs(alloc, names.as_slice())
}

// Every later part is looked at for each.
fn has_twice_of_few(parts: &[StatedPart]) -> bool
    ensures { result ≡ has_twice parts.now }
{
    let mut left = parts;
    while let [first, rest @ ..] = left {
        if has_name(rest, &first.dimension) {
            return true;
        }
        left = rest;
    }
    false
}

fn has_name(parts: &[StatedPart], name: &DimensionName) -> bool
    ensures { result ≡ list_any (λ other. is_same_name name.now other.dimension) parts.now }
{
    parts
        .iter()
        .any(|other| is_same_name(name, &other.dimension))
}

fn is_same_name(name: &DimensionName, other: &DimensionName) -> bool
    ensures { result ≡ is_same_name name.now other.now }
{
    match (name, other) {
        (DimensionName::Taxonomy(name), DimensionName::Taxonomy(other)) => {
            other.is(name.space.as_str(), name.local.as_str())
        }
        _ => false,
    }
}

// The names of the dimensions of taxonomies.
fn names_of(alloc: Global, parts: &[StatedPart]) -> Result<Vec<TextPair<'_>>, Memory>
    ensures { IfOk result (λ names. map lent_texts names.items ≡ filter_map part_name parts.now) }
{
    let mut names = Vec::new(alloc);
    for part in parts {
        if let DimensionName::Taxonomy(name) = &part.dimension {
            names.push(TextPair {
                first: name.space.as_str(),
                second: name.local.as_str(),
            })?;
        }
    }
    Ok(names)
}
