// Arcs that are effective, which their equivalent ones settle.
ghost use Rattle.std.specs.Prelude.{◌≡◌, List, Some, map, slice_get, IfOk};
ghost use Rattle.xc_calc.specs.Effective.{is_effective, effective_arcs};
ghost use Rattle.xc_calc.specs.Steps.Groups.{AreGroups};
ghost use Rattle.xc_calc.specs.declared.arc.ListedArc.{ListedArc};

use crate::arc::ListedArc;
use crate::common::{Common, KeyedArc, common_of, keyed_arcs};
use crate::groups::{Group, is_effective_by, put_arc};
use std::alloc::Global;
use std::collections::BTreeMap;
use xc_lists::Memory;

// The groups of equivalent arcs, by what these have in common.
fn groups_of<'b>(
    alloc: Global,
    arcs: &'b [KeyedArc<'_>],
) -> Result<BTreeMap<Common<'b>, Group>, Memory>
    ensures { IfOk result (λ groups. AreGroups groups arcs.now) }
{
    let mut groups = BTreeMap::new(alloc);
    for (at, keyed) in arcs.iter().enumerate() {
        put_arc(&mut groups, keyed, at)?;
    }
    Ok(groups)
}

// Whether the arc at this place is effective: it is the first of those of the highest priority, and
// none of these is prohibited.
fn is_effective<'b>(
    groups: &BTreeMap<Common<'b>, Group>,
    keyed: &'b KeyedArc<'_>,
    at: usize,
) -> bool
    ensures { (arcs : List ListedArc) → AreGroups groups.now arcs → slice_get arcs at ≡ Some keyed.now → result ≡ is_effective arcs at keyed.now }
{
    match groups.get(&common_of(keyed)) {
        Some(group) => is_effective_by(group, at),
        None => false,
    }
}

// The effective ones of these arcs, in their order.
fn effective_among<'a, 'b>(
    alloc: Global,
    arcs: &'b [KeyedArc<'a>],
) -> Result<Vec<&'a ListedArc>, Memory>
    ensures { IfOk result (λ effective. map (λ a. a.now) effective.items ≡ effective_arcs arcs.now) }
{
    let groups = groups_of(alloc, arcs)?;
    let mut effective = Vec::new(alloc);
    for (at, keyed) in arcs.iter().enumerate() {
        if is_effective(&groups, keyed, at) {
            effective.push(keyed.arc())?;
        }
    }
    Ok(effective)
}

/// The effective arcs of a list, in its order.
pub(crate) fn effective_arcs<'a>(
    alloc: Global,
    arcs: &'a [ListedArc],
) -> Result<Vec<&'a ListedArc>, Memory>
    ensures { IfOk result (λ effective. map (λ a. a.now) effective.items ≡ effective_arcs arcs.now) }
{
    let keyed = keyed_arcs(alloc, arcs)?;
    effective_among(alloc, keyed.as_slice())
}
