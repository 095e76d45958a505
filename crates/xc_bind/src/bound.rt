// The calculation bindings of a report.
ghost use Rattle.std.specs.Prelude.{◌≡◌, ◌<◌, ◌≤◌, ◌*◌, ◌+◌, ◌++◌, ◌^◌, length, All, IfOk, OnOk};
ghost use Rattle.xc_bind.specs.Bindings.{term_of, terms_of, binding_of, bindings_in, bindings_of};
ghost use Rattle.xc_bind.specs.Placed.{IsOfNetworks, IsPlaced};
ghost use Rattle.xc_bind.specs.Steps.Totals.{binding_at};

use crate::arcs_from::ArcsFrom;
use crate::point_index::PointIndex;
use crate::totals::totals_of;
use crate::types::{Binding, Term};
use std::alloc::Global;
use xc_calc::{Arc, Network};
use xc_lists::{Items, Memory};
use xc_points::{Point, Points};

/// The bindings of a report: each point that is a total of a network, where a contributor is reported beside
/// it with the same key (Calculations 1.1).
///
/// They come in the order of the networks, which is the order of the roles as bytes where the networks are
/// those that `xc_calc` answers, and then by the number of the total. A binding has a term for each effective
/// arc from the total's concept to a contributor that is reported, in reading order; contributors that are
/// not reported are left out.
pub fn bindings(
    alloc: Global,
    networks: &[Network],
    points: &Points,
) -> Result<Vec<Binding>, Memory>
    requires few { length networks.now * length points.now.points < 2 ^ 31 }
    ensures exactly { IfOk result (λ list. list.items ≡ bindings_of networks.now points.now.points) }
    ensures few { IfOk result (λ list. length list.items ≤ length networks.now * length points.now.points) }
    ensures networks { IfOk result (λ list. All (IsOfNetworks networks.now) list.items) }
    ensures points { IfOk result (λ list. All (IsPlaced points.now.points) list.items) }
{
    let index = PointIndex::of(alloc, points.as_slice())?;
    let mut list = Vec::new(alloc);
    for (at, network) in networks.iter().enumerate() {
        add_network(alloc, &mut list, &index, at, network)?;
    }
    Ok(list)
}

// Adds the bindings of a network, by the numbers of their totals.
fn add_network(
    alloc: Global,
    list: &mut Vec<Binding>,
    points: &PointIndex<'_>,
    at: usize,
    network: &Network,
) -> Result<(), Memory>
    requires few { (at + 1) * length points.now < 2 ^ 31 }
    ensures { OnOk result (list.new.items ≡ list.old.items ++ bindings_in points.now (at, network.now)) }
{
    let arcs = ArcsFrom::of(alloc, network.arcs.as_slice())?;
    let totals = totals_of(alloc, points, network.arcs.as_slice())?;
    for number in &totals {
        if let Some(binding) = binding_at(alloc, points, &arcs, at as u32, *number)? {
            list.push(binding)?;
        }
    }
    Ok(())
}

// The binding in a network of the point with this number, where a contributor is reported beside it.
fn binding_at(
    alloc: Global,
    points: &PointIndex<'_>,
    arcs: &ArcsFrom<'_>,
    network: u32,
    number: usize,
) -> Result<Option<Binding>, Memory>
    requires few { length points.now < 2 ^ 32 }
    requires inside { number < length points.now }
    ensures { IfOk result (λ binding. binding ≡ binding_at points.now network arcs.now number) }
{
    let total = &points.points()[number];
    binding_of(alloc, points, arcs, network, number as u32, total)
}

// The binding of a point with this number.
fn binding_of(
    alloc: Global,
    points: &PointIndex<'_>,
    arcs: &ArcsFrom<'_>,
    network: u32,
    number: u32,
    total: &Point,
) -> Result<Option<Binding>, Memory>
    requires few { length points.now < 2 ^ 32 }
    ensures { IfOk result (λ binding. binding ≡ binding_of points.now network arcs.now (number, total.now)) }
{
    let terms = terms_of(alloc, points, arcs, total)?;
    if terms.is_empty() {
        return Ok(None);
    }
    Ok(Some(Binding {
        network,
        total: number,
        terms: Items::of(terms),
    }))
}

// The contributors of a point that are reported with its key.
fn terms_of(
    alloc: Global,
    points: &PointIndex<'_>,
    arcs: &ArcsFrom<'_>,
    total: &Point,
) -> Result<Vec<Term>, Memory>
    requires few { length points.now < 2 ^ 32 }
    ensures { IfOk result (λ terms. terms.items ≡ terms_of points.now arcs.now total.now) }
{
    let mut terms = Vec::new(alloc);
    for arc in arcs.from_concept(total.concept) {
        if let Some(term) = term_of(points, total.key, *arc) {
            terms.push(term)?;
        }
    }
    Ok(terms)
}

// The term of an arc, where its contributor is reported with this key.
fn term_of(points: &PointIndex<'_>, key: u64, arc: Arc) -> Option<Term>
    requires few { length points.now < 2 ^ 32 }
    ensures { result ≡ term_of points.now key arc }
{
    match points.number_of(arc.to, key) {
        Some(point) => Some(Term {
            point,
            weight: arc.weight,
        }),
        None => None,
    }
}
