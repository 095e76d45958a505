// What arc elements say of their arcs, and the rules that they break.
ghost use Rattle.std.specs.Prelude.{◌≡◌, ◌<◌, ◌⊎◌, Some, None, length, IfOk, IfErr, OnOk};
ghost use Rattle.xc_calc.specs.Attributes.{is_zero};
ghost use Rattle.xc_calc.specs.Linked.{role_around, arc_element_at};
ghost use Rattle.xc_calc.specs.Rules.{attribute_fault};
ghost use Rattle.xc_calc.specs.Steps.{drawn_view};

use crate::arc::Use;
use crate::attributes::{order_at, others_at, priority_at, use_at, weight_at};
use crate::elements::role_at;
use crate::fault::LinkFault;
use crate::shared::Shared;
use std::alloc::Global;
use xc_decimal::Decimal;
use xc_elements::{Attribute, Tree};
use xc_lists::{Items, Memory, Text};

/// What an arc element says of each of its arcs.
#[derive(Drop)]
pub(crate) struct Drawn {
    pub role: Shared<Text>,
    pub weight: Decimal,
    pub order: Decimal,
    pub others: Shared<Items<Attribute>>,
    pub priority: i64,
    pub usage: Use,
}

fn is_zero(number: Decimal) -> bool
    ensures { result ≡ is_zero number }
{
    number.digits() == 0
}

// The role of the extended link around an arc element.
fn role_around(alloc: Global, tree: &Tree, at: u32) -> Result<Text, Memory>
    requires { at < length tree.now }
    ensures { IfOk result (λ role. role ≡ role_around tree.now at) }
{
    let role = match tree.parent_of(at) {
        Some(link) => role_at(tree, link),
        None => "",
    };
    Ok(Text::of(String::from_str(alloc, role)?))
}

/// What the arc element at this place says of its arcs, or the first rule that its attributes break.
pub(crate) fn arc_element_at(alloc: Global, tree: &Tree, at: u32) -> Result<Drawn, LinkFault>
    requires { at < length tree.now }
    ensures drawn { IfOk result (λ drawn. arc_element_at tree.now at ≡ Some (drawn_view drawn)) }
    ensures sound { OnOk result (attribute_fault tree.now at ≡ None) }
    ensures fault { IfErr result (λ e. (e ≡ LinkFault.Memory) ⊎ (attribute_fault tree.now at ≡ Some e)) }
{
    let Some(weight) = weight_at(tree, at) else {
        return Err(LinkFault::BadWeight(at));
    };
    if is_zero(weight) {
        return Err(LinkFault::ZeroWeight(at));
    }
    let Some(order) = order_at(tree, at) else {
        return Err(LinkFault::BadOrder(at));
    };
    let Some(priority) = priority_at(tree, at) else {
        return Err(LinkFault::BadPriority(at));
    };
    let Some(usage) = use_at(tree, at) else {
        return Err(LinkFault::BadUse(at));
    };
    Ok(Drawn {
        role: Shared::of(alloc, role_around(alloc, tree, at)?)?,
        weight,
        order,
        others: Shared::of(alloc, Items::of(others_at(alloc, tree, at)?))?,
        priority,
        usage,
    })
}
