// Units: products of measures, and quotients of two.
ghost use Rattle.std.specs.Prelude.{◌≡◌, option_map, IfOk};
ghost use Rattle.xc_names.specs.Names.{name_of};
ghost use Rattle.xc_report.specs.Prefixed.{expanded_name};
ghost use Rattle.xc_report.specs.Steps.{Reads};
ghost use Rattle.xc_report.specs.Units.{product, behind_open, before_close, single, side, unit, is_pure, is_pure_alone};

use crate::prefixed::expanded_name;
use crate::stated::Refusal;
use std::alloc::Global;
use xc_chars::around;
use xc_lists::Items;
use xc_names::{Expanded, Prefixes};

// The namespace of XBRL 2.1.
const INSTANCE: &str = "http://www.xbrl.org/2003/instance";

/// The measures of a unit text, above the line and below it, in the order in which they stand.
///
/// A unit text is measures joined by `*`, or a side, `/` and a side, where a side is one measure or
/// measures joined by `*` in parentheses. A measure is a declared prefix and a local part.
pub fn unit(
    alloc: Global,
    prefixes: &Prefixes,
    text: &str,
) -> Result<(Items<Expanded>, Items<Expanded>), Refusal>
    ensures { Reads result (unit prefixes.now text.now) }
{
    match around(text, '/') {
        Some((above, below)) => {
            let above = side(alloc, prefixes, above)?;
            let below = side(alloc, prefixes, below)?;
            Ok((above, below))
        }
        None => {
            let above = product(alloc, prefixes, text)?;
            Ok((above, Items::of(Vec::new(alloc))))
        }
    }
}

/// Whether measures are the one measure `pure` of XBRL 2.1, section 4.8.2, which says the same as no
/// unit.
pub fn is_pure_alone(measures: &(Items<Expanded>, Items<Expanded>)) -> bool
    ensures { result ≡ is_pure_alone measures.now }
{
    match (measures.0.as_slice(), measures.1.as_slice()) {
        ([name], []) => is_pure(name),
        _ => false,
    }
}

fn is_pure(name: &Expanded) -> bool
    ensures { result ≡ is_pure name.now }
{
    name.is(INSTANCE, "pure")
}

fn side(alloc: Global, prefixes: &Prefixes, text: &str) -> Result<Items<Expanded>, Refusal>
    ensures { Reads result (side prefixes.now text.now) }
{
    match behind_open(text) {
        Some(rest) => match before_close(rest) {
            Some(inside) => product(alloc, prefixes, inside),
            None => Err(Refusal::Bad),
        },
        None => single(alloc, prefixes, text),
    }
}

fn single(alloc: Global, prefixes: &Prefixes, text: &str) -> Result<Items<Expanded>, Refusal>
    ensures { Reads result (single prefixes.now text.now) }
{
    let mut measures = Vec::new(alloc);
    measures.push(measure(alloc, prefixes, text)?)?;
    Ok(Items::of(measures))
}

fn product(alloc: Global, prefixes: &Prefixes, text: &str) -> Result<Items<Expanded>, Refusal>
    ensures { Reads result (product prefixes.now text.now) }
{
    let mut measures = Vec::new(alloc);
    let mut left = text;
    while let Some((first, rest)) = around(left, '*') {
        match expanded_name(prefixes, first) {
            Some((space, local)) => measures.push(Expanded::of(alloc, space, local)?)?,
            None => return Err(Refusal::Bad),
        }
        left = rest;
    }
    match expanded_name(prefixes, left) {
        Some((space, local)) => measures.push(Expanded::of(alloc, space, local)?)?,
        None => return Err(Refusal::Bad),
    }
    Ok(Items::of(measures))
}

fn measure(alloc: Global, prefixes: &Prefixes, text: &str) -> Result<Expanded, Refusal>
    ensures { Reads result (expanded_name prefixes.now text.now) }
{
    match expanded_name(prefixes, text) {
        Some((space, local)) => Ok(Expanded::of(alloc, space, local)?),
        None => Err(Refusal::Bad),
    }
}

fn behind_open(text: &str) -> Option<&str>
    ensures { option_map (λ rest. rest.now) result ≡ behind_open text.now }
{
    match around(text, '(') {
        Some((before, rest)) => if before.len() == 0 { Some(rest) } else { None },
        None => None,
    }
}

fn before_close(text: &str) -> Option<&str>
    ensures { option_map (λ inside. inside.now) result ≡ before_close text.now }
{
    match around(text, ')') {
        Some((inside, after)) => if after.len() == 0 { Some(inside) } else { None },
        None => None,
    }
}
