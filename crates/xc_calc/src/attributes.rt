// What the attributes of an arc element say.
ghost use Rattle.std.specs.Prelude.{◌≡◌, ◌<◌, ◌++◌, ◌∷◌, [], ℤ, length, option_map, filter, IfOk};
ghost use Rattle.xc_calc.specs.Attributes.{decimal_of, weight_at, order_at, integer_of, priority_at, use_named, use_at, is_own_name, is_exempt, is_other, others_at};

use crate::arc::Use;
use crate::elements::{XLINK_SPACE, plain_at};
use std::alloc::Global;
use xc_decimal::{Decimal, read_decimal};
use xc_elements::{Attribute, DECLARATIONS_SPACE, Tree};
use xc_lists::Memory;

fn decimal_of(text: &str) -> Option<Decimal>
    ensures { result ≡ decimal_of text.now }
{
    match read_decimal(text) {
        Ok(number) => Some(number),
        Err(_) => None,
    }
}

/// The weight of an arc element, where it has one that is a decimal number and not too wide.
pub(crate) fn weight_at(tree: &Tree, at: u32) -> Option<Decimal>
    requires { at < length tree.now }
    ensures { result ≡ weight_at tree.now at }
{
    match plain_at(tree, at, "weight") {
        Some(text) => decimal_of(text),
        None => None,
    }
}

/// The same of its order, which is 1 where it has none.
pub(crate) fn order_at(tree: &Tree, at: u32) -> Option<Decimal>
    requires { at < length tree.now }
    ensures { result ≡ order_at tree.now at }
{
    match plain_at(tree, at, "order") {
        Some(text) => decimal_of(text),
        None => decimal_of("1"),
    }
}

// The whole number that an optional sign and digits spell, within 64 bits.
fn integer_of(text: &str) -> Option<i64>
    ensures { result ≡ integer_of text.now }
{
    match text.parse::<i64>() {
        Ok(number) => Some(number),
        Err(_) => None,
    }
}

/// The priority of an arc element, 0 where it has none.
pub(crate) fn priority_at(tree: &Tree, at: u32) -> Option<i64>
    requires { at < length tree.now }
    ensures { result ≡ priority_at tree.now at }
{
    match plain_at(tree, at, "priority") {
        Some(text) => integer_of(text),
        None => Some(0),
    }
}

fn use_named(text: &str) -> Option<Use>
    ensures { result ≡ use_named text.now }
{
    match text {
        "optional" => Some(Use::Optional),
        "prohibited" => Some(Use::Prohibited),
        _ => None,
    }
}

/// The use of an arc element, `optional` where it has none.
pub(crate) fn use_at(tree: &Tree, at: u32) -> Option<Use>
    requires { at < length tree.now }
    ensures { result ≡ use_at tree.now at }
{
    match plain_at(tree, at, "use") {
        Some(text) => use_named(text),
        None => Some(Use::Optional),
    }
}

// Whether it names an attribute of an arc element that is compared as a number, or not at all.
fn is_own_name(local: &str) -> bool
    ensures { result ≡ is_own_name local.now }
{
    matches!(local, "use" | "priority" | "weight" | "order")
}

// Whether the attribute is exempt where arcs are compared as to all other attributes.
fn is_exempt(attribute: &Attribute) -> bool
    ensures { result ≡ is_exempt attribute.now }
{
    attribute.space.as_str() == XLINK_SPACE
        || attribute.space.as_str() == DECLARATIONS_SPACE
        || (attribute.space.as_str() == "" && is_own_name(attribute.local.as_str()))
}

fn copy_of(attribute: &Attribute) -> Result<Attribute, Memory>
    ensures { IfOk result (λ copy. copy ≡ attribute.now) }
{
    Ok(Attribute {
        space: attribute.space.copy()?,
        local: attribute.local.copy()?,
        value: attribute.value.copy()?,
    })
}

// Those of the attributes that are not exempt.
fn others(alloc: Global, attributes: &[Attribute]) -> Result<Vec<Attribute>, Memory>
    ensures { IfOk result (λ others. others.items ≡ filter is_other attributes.now) }
{
    let mut others = Vec::new(alloc);
    for attribute in attributes {
        if !is_exempt(attribute) {
            others.push(copy_of(attribute)?)?;
        }
    }
    Ok(others)
}

/// The other attributes of an arc element, as they were read.
pub(crate) fn others_at(alloc: Global, tree: &Tree, at: u32) -> Result<Vec<Attribute>, Memory>
    requires { at < length tree.now }
    ensures { IfOk result (λ others. others.items ≡ others_at tree.now at) }
{
    others(alloc, tree.nodes()[at as usize].attributes.as_slice())
}
