// The networks of effective arcs, by role.
ghost use Rattle.std.specs.Prelude.{◌≡◌, ◌++◌, ◌∷◌, [], ◌||◌, ℕ, List, map, IfOk, OnOk};
ghost use Rattle.std.specs.List.{list_any};
ghost use Rattle.std.specs.List.Sorted.{IsStrictlySortedBy};
ghost use Rattle.std.specs.Str.{bytes_eq};
ghost use Rattle.xc_calc.specs.Networks.{arcs_of, some_role};
ghost use Rattle.xc_calc.specs.Steps.{by_bytes, list_of, AreByRole};
ghost use Rattle.xc_calc.specs.declared.arc.ListedArc.{ListedArc};

use crate::arc::{Arc, ListedArc, Network};
use crate::lists_by_key::{list_of, put_last};
use std::alloc::Global;
use std::collections::{BTreeMap, BTreeSet};
use xc_lists::{Items, Memory, Text};

/// The roles of arcs.
pub(crate) fn roles_of<'a>(
    alloc: Global,
    arcs: &[&'a ListedArc],
) -> Result<BTreeSet<&'a str>, Memory>
    ensures { IfOk result (λ roles. (role : List ℕ) → list_any (λ r. bytes_eq role r.now) roles.keys ≡ some_role (map (λ a. a.now) arcs.now) role) }
{
    let mut roles = BTreeSet::new(alloc);
    for arc in arcs {
        roles.insert(arc.role())?;
    }
    Ok(roles)
}

// Puts an arc behind those of its role.
fn put_arc<'a>(
    alloc: Global,
    lists: &mut BTreeMap<&'a str, Vec<Arc>>,
    listed: &'a ListedArc,
) -> Result<(), Memory>
    ensures { OnOk result ((arcs : List ListedArc) → AreByRole lists.old arcs → AreByRole lists.new (arcs ++ listed.now ∷ [])) }
{
    put_last(alloc, lists, listed.role(), listed.arc)?;
    Ok(())
}

// The arcs of a list by their roles.
fn by_role<'a>(alloc: Global, arcs: &[&'a ListedArc]) -> Result<BTreeMap<&'a str, Vec<Arc>>, Memory>
    ensures { IfOk result (λ lists. AreByRole lists (map (λ a. a.now) arcs.now)) }
{
    let mut lists = BTreeMap::new(alloc);
    for listed in arcs {
        put_arc(alloc, &mut lists, listed)?;
    }
    Ok(lists)
}

// The network of a role of these arcs.
fn network_of<'a>(
    alloc: Global,
    lists: &BTreeMap<&'a str, Vec<Arc>>,
    role: &'a str,
) -> Result<Network, Memory>
    ensures role { IfOk result (λ network. network.role ≡ role.now) }
    ensures arcs { IfOk result (λ network. network.arcs ≡ list_of by_bytes lists.now role.entry) }
{
    Ok(Network {
        role: Text::of(String::from_str(alloc, role)?),
        arcs: Items::of(Vec::from_slice(alloc, list_of(lists, &role))?),
    })
}

/// The networks of these roles, in their order.
pub(crate) fn networks_of<'a>(
    alloc: Global,
    arcs: &[&'a ListedArc],
    roles: &BTreeSet<&'a str>,
) -> Result<Vec<Network>, Memory>
    ensures ascending { IfOk result (λ networks. IsStrictlySortedBy by_bytes roles.now.keys) }
    ensures roles { IfOk result (λ networks. map (λ n. n.role) networks.items ≡ map (λ r. r.now) roles.now.keys) }
    ensures arcs { IfOk result (λ networks. map (λ n. n.arcs) networks.items ≡ map (λ n. arcs_of (map (λ a. a.now) arcs.now) n.role) networks.items) }
{
    let lists = by_role(alloc, arcs)?;
    let mut networks = Vec::new(alloc);
    for role in roles {
        networks.push(network_of(alloc, &lists, role)?)?;
    }
    Ok(networks)
}
