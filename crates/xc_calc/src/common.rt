// What equivalent arcs have in common, as a key: equivalent arcs have equal keys, and no others have.
ghost use Rattle.std.specs.Prelude.{◌≡◌, map, IfOk};
ghost use Rattle.xc_calc.specs.Steps.Common.{IsCommonOf, number_of};
ghost use Rattle.xc_calc.specs.Steps.Sets.{attribute_of, in_order};

use crate::arc::ListedArc;
use std::alloc::Global;
use std::collections::BTreeSet;
use std::marker::Model;
use xc_decimal::Decimal;
use xc_elements::Attribute;
use xc_lists::{Items, Memory};
use xc_names::NameId;

/// An attribute, as two are compared: by its expanded name and its value.
#[derive(Clone, Copy, PartialEq, Eq, PartialOrd, Ord)]
pub(crate) struct Compared<'a> {
    pub space: &'a str,
    pub local: &'a str,
    pub value: &'a str,
}

/// A decimal number, as two are compared.
#[derive(Clone, Copy, PartialEq, Eq, PartialOrd, Ord)]
pub(crate) struct Number {
    pub digits: i128,
    pub places: u32,
}

/// What equivalent arcs have in common.
#[derive(Clone, Copy, PartialEq, Eq, PartialOrd, Ord)]
pub(crate) struct Common<'a> {
    pub from: NameId,
    pub to: NameId,
    pub role: &'a str,
    pub weight: Number,
    pub order: Number,
    pub others: &'a [Compared<'a>],
}

fn compared_of(attribute: &Attribute) -> Compared<'_>
    ensures { attribute_of result ≡ attribute.now }
{
    Compared {
        space: attribute.space.as_str(),
        local: attribute.local.as_str(),
        value: attribute.value.as_str(),
    }
}

// The attributes, each once.
fn set_of_attributes<'a>(
    alloc: Global,
    attributes: &'a [Attribute],
) -> Result<BTreeSet<Compared<'a>>, Memory>
    ensures { IfOk result (λ set. map attribute_of set.keys ≡ in_order attributes.now) }
{
    let mut set = BTreeSet::new(alloc);
    for attribute in attributes {
        set.insert(compared_of(attribute))?;
    }
    Ok(set)
}

// The same as a list.
fn list_of_set<'a>(alloc: Global, set: &BTreeSet<Compared<'a>>) -> Result<Vec<Compared<'a>>, Memory>
    ensures { IfOk result (λ list. list.items ≡ set.now.keys) }
{
    let mut list = Vec::new(alloc);
    for attribute in set {
        list.push(*attribute)?;
    }
    Ok(list)
}

fn number_of(number: Decimal) -> Number
    ensures { result ≡ number_of number }
{
    Number {
        digits: number.digits(),
        places: number.places(),
    }
}

/// An arc with the set of its other attributes, in order. Contracts see it as the arc.
#[derive(Drop)]
pub(crate) struct KeyedArc<'a> {
    arc: &'a ListedArc,
    others: Items<Compared<'a>>,
}

impl<'a> Model for KeyedArc<'a> {
    ghost use Rattle.std.specs.Prelude.{◌≡◌, map};
    ghost use Rattle.xc_calc.specs.Steps.Sets.{attribute_of, in_order};
    ghost use Rattle.xc_calc.specs.declared.arc.ListedArc.{ListedArc};

    ghost Value = { ListedArc };

    ghost view = { λ keyed. keyed.arc.now };

    ghost invariant = { λ keyed. map attribute_of keyed.others ≡ in_order keyed.arc.now.others };
}

impl<'a> KeyedArc<'a> {
    /// An arc with its set.
    pub(crate) fn of(alloc: Global, arc: &'a ListedArc) -> Result<KeyedArc<'a>, Memory>
        ensures { IfOk result (λ keyed. keyed ≡ arc.now) }
    {
        let set = set_of_attributes(alloc, arc.others())?;
        let others = Items::of(list_of_set(alloc, &set)?);
        Ok(KeyedArc { arc, others })
    }

    /// The arc.
    pub(crate) fn arc(&self) -> &'a ListedArc
        ensures { result.now ≡ self.now }
    {
        self.arc
    }

    /// Its other attributes as a set.
    pub(crate) fn others(&self) -> &[Compared<'a>]
        ensures { map attribute_of result.now ≡ in_order self.now.others }
    {
        self.others.as_slice()
    }
}

/// What an arc has in common with those that are equivalent.
pub(crate) fn common_of<'b>(keyed: &'b KeyedArc<'_>) -> Common<'b>
    ensures { IsCommonOf result keyed.now }
{
    let a = keyed.arc();
    Common {
        from: a.arc.from,
        to: a.arc.to,
        role: a.role(),
        weight: number_of(a.arc.weight),
        order: number_of(a.order),
        others: keyed.others(),
    }
}

/// Arcs with the sets of their other attributes.
pub(crate) fn keyed_arcs<'a>(
    alloc: Global,
    arcs: &'a [ListedArc],
) -> Result<Vec<KeyedArc<'a>>, Memory>
    ensures { IfOk result (λ keyed. keyed.items ≡ arcs.now) }
{
    let mut keyed = Vec::new(alloc);
    for arc in arcs {
        keyed.push(KeyedArc::of(alloc, arc)?)?;
    }
    Ok(keyed)
}
