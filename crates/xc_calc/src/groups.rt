// Equivalent arcs, of which only those of the highest priority can be effective.
ghost use Rattle.std.specs.Prelude.{◌≡◌, ◌==◌, ◌&&◌, ◌||◌, ◌++◌, ◌∷◌, [], not, true, Bool, List, length, int_lt, OnOk};
ghost use Rattle.std.specs.Ordering.{int_eq};
ghost use Rattle.xc_calc.specs.Effective.{is_prohibited};
ghost use Rattle.xc_calc.specs.Steps.Groups.{IsGroup, IsGroupOf, AreGroups};
ghost use Rattle.xc_calc.specs.declared.arc.ListedArc.{ListedArc};

use crate::arc::{ListedArc, Use};
use crate::common::{Common, KeyedArc, common_of};
use std::collections::BTreeMap;
use xc_lists::Memory;

/// Of arcs that are equivalent, those of the highest priority.
#[derive(Clone, Copy)]
pub(crate) struct Group {
    pub priority: i64,
    /// Whether an arc of that priority is prohibited.
    pub barred: bool,
    /// The place of the first arc of that priority.
    pub first: usize,
}

fn is_prohibited(usage: Use) -> bool
    ensures { result ≡ is_prohibited usage }
{
    match usage {
        Use::Optional => false,
        Use::Prohibited => true,
    }
}

// The group of arcs of which the last alone has the highest priority.
fn group_of(last: &ListedArc, at: usize) -> Group
    ensures { result ≡ record { priority = last.now.priority; barred = is_prohibited last.now.usage; first = at } }
{
    Group {
        priority: last.priority,
        barred: is_prohibited(last.usage),
        first: at,
    }
}

// Whether an arc has a higher priority than those of the group.
fn is_higher(last: &ListedArc, group: Group) -> bool
    ensures { result ≡ int_lt group.priority last.now.priority }
{
    group.priority < last.priority
}

// Whether an arc has the priority of the group, and is prohibited.
fn is_bar(last: &ListedArc, group: Group) -> bool
    ensures { result ≡ (int_eq group.priority last.now.priority && is_prohibited last.now.usage) }
{
    group.priority == last.priority && is_prohibited(last.usage)
}

// The group with one more arc of its priority or of a lower one, which leaves its first arc.
fn group_with_lower(group: Group, last: &ListedArc) -> Group
    ensures { result ≡ record { priority = group.priority; barred = group.barred || (int_eq group.priority last.now.priority && is_prohibited last.now.usage); first = group.first } }
{
    Group {
        priority: group.priority,
        barred: group.barred || is_bar(last, group),
        first: group.first,
    }
}

// The group with one more arc, which stands behind the others.
fn group_with(group: Group, last: &ListedArc, at: usize) -> Group
    ensures { (test : ListedArc → Bool) (arcs : List ListedArc) → at ≡ length arcs → test last.now ≡ true → IsGroup test arcs group → IsGroup test (arcs ++ last.now ∷ []) result }
{
    if is_higher(last, group) {
        return group_of(last, at);
    }
    group_with_lower(group, last)
}

// The same where there may be no group yet.
fn group_after(group: Option<Group>, last: &ListedArc, at: usize) -> Group
    ensures { (test : ListedArc → Bool) (arcs : List ListedArc) → at ≡ length arcs → test last.now ≡ true → IsGroupOf test arcs group → IsGroup test (arcs ++ last.now ∷ []) result }
{
    match group {
        Some(group) => group_with(group, last, at),
        None => group_of(last, at),
    }
}

/// Whether the arc at this place is the first one of its group, and no arc bars it.
pub(crate) fn is_effective_by(group: &Group, at: usize) -> bool
    ensures { result ≡ ((group.now.first == at) && not group.now.barred) }
{
    group.first == at && !group.barred
}

/// Puts an arc, which stands behind the others, into the group of its equivalent ones.
pub(crate) fn put_arc<'b>(
    groups: &mut BTreeMap<Common<'b>, Group>,
    keyed: &'b KeyedArc<'_>,
    at: usize,
) -> Result<(), Memory>
    ensures { OnOk result ((arcs : List ListedArc) → at ≡ length arcs → AreGroups groups.old arcs → AreGroups groups.new (arcs ++ keyed.now ∷ [])) }
{
    let key = common_of(keyed);
    let group = group_after(groups.get(&key).copied(), keyed.arc(), at);
    groups.insert(key, group)?;
    Ok(())
}
