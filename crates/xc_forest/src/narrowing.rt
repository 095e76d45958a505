// The vertices of a forest are taken away, one after another, and the spans of those that are left are narrowed.
ghost use Rattle.std.specs.Prelude.{◌≡◌, ℕ, ◌+◌, ◌<◌, ◌≤◌, ◌^◌, ◌∷◌, [], ◌++◌, Bool, true, false, not, IfOk, MatchOption, length, drop, slice_index_or, slice_set};
ghost use Rattle.xc_forest.specs.Forests.{HasRoom, ranges_of};
ghost use Rattle.xc_lists.specs.Members.{IsIn};
ghost use Rattle.xc_forest.specs.Steps.Links.{IsListingOf, link_at};
ghost use Rattle.xc_forest.specs.Steps.Scaled.{AreBoundsOver, AreSpansOver, first_spans, scale_of};
ghost use Rattle.xc_forest.specs.Steps.Trails.{IsClash, IsNarrowed, point_clash, row_clash};

use crate::links::Link;
use crate::spans::{Bounds, is_empty, is_less, meet, row_without_point, span_with_sign};
use crate::types::Forest;
use crate::undos::{Clash, Undo};
use std::alloc::Global;
use xc_frac::Exact;
use xc_interval::Interval;
use xc_lists::Memory;

/// The spans of all vertices: a point's is its range, and a row's is 0 alone.
pub(crate) fn first_spans<E: Exact>(
    alloc: Global,
    forest: &Forest<E>,
) -> Result<Vec<Bounds<E>>, Memory>
    ensures each { IfOk result (λ spans. length spans.items ≡ length forest.now.ranges + length forest.now.rows) }
    ensures spans { IfOk result (λ spans. AreSpansOver E.parts (scale_of (ranges_of E.parts forest.now.ranges)) spans.items (first_spans (ranges_of E.parts forest.now.ranges))) }
{
    let mut spans = point_spans(alloc, forest.ranges.as_slice())?;
    for _row in 0..forest.rows.as_slice().len() {
        spans.push(Bounds {
            low: E::zero(),
            high: E::zero(),
        })?;
    }
    Ok(spans)
}

// The spans of points.
fn point_spans<E: Exact>(alloc: Global, ranges: &[Interval<E>]) -> Result<Vec<Bounds<E>>, Memory>
    ensures each { IfOk result (λ spans. length spans.items ≡ length ranges.now) }
    ensures spans { IfOk result (λ spans. AreSpansOver E.parts (scale_of (ranges_of E.parts ranges.now)) spans.items (first_spans (ranges_of E.parts ranges.now))) }
{
    let mut spans = Vec::new(alloc);
    for range in ranges {
        spans.push(Bounds {
            low: range.low.value(),
            high: range.high.value(),
        })?;
    }
    Ok(spans)
}

/// Takes all vertices away; or gives the multipliers of two whose spans do not meet.
pub(crate) fn take_vertices<E: Exact>(
    forest: &Forest<E>,
    links: &[Link],
    spans: &mut Vec<Bounds<E>>,
    undos: &mut Vec<Undo<E>>,
) -> Result<Option<Clash>, Memory>
    requires listing { IsListingOf forest.now links.now }
    requires room { HasRoom E.parts E.passes (ranges_of E.parts forest.now.ranges) }
    requires narrowed { IsNarrowed E.parts forest.now links.now 0 spans.old.items undos.old.items }
    ensures { IfOk result (λ clash. MatchOption clash (IsNarrowed E.parts forest.now links.now (length links.now) spans.new.items undos.new.items)
        (IsClash E.parts forest.now links.now undos.new.items)) }
{
    for k in 0..links.len() {
        if let Some(clash) = take_vertex(forest, links, k, spans, undos)? {
            return Ok(Some(clash));
        }
    }
    Ok(None)
}

// Takes vertex k away.
fn take_vertex<E: Exact>(
    forest: &Forest<E>,
    links: &[Link],
    k: usize,
    spans: &mut Vec<Bounds<E>>,
    undos: &mut Vec<Undo<E>>,
) -> Result<Option<Clash>, Memory>
    requires there { k < length links.now }
    requires listing { IsListingOf forest.now links.now }
    requires room { HasRoom E.parts E.passes (ranges_of E.parts forest.now.ranges) }
    requires narrowed { IsNarrowed E.parts forest.now links.now k spans.old.items undos.old.items }
    ensures { IfOk result (λ clash. MatchOption clash (IsNarrowed E.parts forest.now links.now (k + 1) spans.new.items undos.new.items)
        (IsClash E.parts forest.now links.now undos.new.items)) }
{
    let link = links[k];
    if link.is_alone {
        take_alone(forest, links, k, spans.as_slice(), undos)
    } else if (link.vertex as usize) < forest.ranges.as_slice().len() {
        take_point(forest, links, k, spans, undos)?;
        Ok(None)
    } else {
        take_row(forest, links, k, spans, undos)
    }
}

// Takes vertex k away, which has no neighbour left.
fn take_alone<E: Exact>(
    forest: &Forest<E>,
    links: &[Link],
    k: usize,
    spans: &[Bounds<E>],
    undos: &mut Vec<Undo<E>>,
) -> Result<Option<Clash>, Memory>
    requires there { k < length links.now }
    requires listing { IsListingOf forest.now links.now }
    requires narrowed { IsNarrowed E.parts forest.now links.now k spans.now undos.old.items }
    requires alone { (link_at links.now k).is_alone ≡ true }
    ensures { IfOk result (λ clash. MatchOption clash (IsNarrowed E.parts forest.now links.now (k + 1) spans.now undos.new.items)
        (IsClash E.parts forest.now links.now undos.new.items)) }
{
    let vertex = links[k].vertex;
    let span = spans[vertex as usize];
    if (vertex as usize) < forest.ranges.as_slice().len() {
        undos.push(Undo::Alone {
            vertex,
            value: span.low,
        })?;
        return Ok(None);
    }
    let zero = E::zero();
    if is_less(zero, span.low) {
        return Ok(Some(lone_clash(vertex, 1)));
    }
    if is_less(span.high, zero) {
        return Ok(Some(lone_clash(vertex, -1)));
    }
    undos.push(Undo::Alone {
        vertex,
        value: zero,
    })?;
    Ok(None)
}

// The multiplier of a row alone.
fn lone_clash(row: u32, by: i8) -> Clash
    ensures { result ≡ record { row = row; row_by = by; point = row; point_by = by } }
{
    Clash {
        row,
        row_by: by,
        point: row,
        point_by: by,
    }
}

// Takes vertex k away, a point that is left in one row: the row's span is lessened by it.
fn take_point<E: Exact>(
    forest: &Forest<E>,
    links: &[Link],
    k: usize,
    spans: &mut Vec<Bounds<E>>,
    undos: &mut Vec<Undo<E>>,
) -> Result<(), Memory>
    requires there { k < length links.now }
    requires listing { IsListingOf forest.now links.now }
    requires room { HasRoom E.parts E.passes (ranges_of E.parts forest.now.ranges) }
    requires narrowed { IsNarrowed E.parts forest.now links.now k spans.old.items undos.old.items }
    requires last { (link_at links.now k).is_alone ≡ false }
    requires kind { (link_at links.now k).vertex < length forest.now.ranges }
    ensures { IfOk result (λ _. IsNarrowed E.parts forest.now links.now (k + 1) spans.new.items undos.new.items) }
{
    let link = links[k];
    let of_row = spans[link.next as usize];
    let of_point = spans[link.vertex as usize];
    spans[link.next as usize] = row_without_point(link.minus, of_row, of_point);
    undos.push(Undo::Point {
        point: link.vertex,
        row: link.next,
        minus: link.minus,
        of_row,
        of_point,
    })?;
    Ok(())
}

// Takes vertex k away, a row that has one point left: the point's span meets what the row leaves it.
fn take_row<E: Exact>(
    forest: &Forest<E>,
    links: &[Link],
    k: usize,
    spans: &mut Vec<Bounds<E>>,
    undos: &mut Vec<Undo<E>>,
) -> Result<Option<Clash>, Memory>
    requires there { k < length links.now }
    requires listing { IsListingOf forest.now links.now }
    requires narrowed { IsNarrowed E.parts forest.now links.now k spans.old.items undos.old.items }
    requires last { (link_at links.now k).is_alone ≡ false }
    requires kind { length forest.now.ranges ≤ (link_at links.now k).vertex }
    ensures { IfOk result (λ clash. MatchOption clash (IsNarrowed E.parts forest.now links.now (k + 1) spans.new.items undos.new.items)
        (IsClash E.parts forest.now links.now undos.new.items)) }
{
    let link = links[k];
    let of_row = spans[link.vertex as usize];
    let of_point = spans[link.next as usize];
    let common = meet(of_point, span_with_sign(link.minus, of_row));
    let bounds = common.bounds;
    if is_empty(bounds) {
        return Ok(Some(clash_of(link, common.low_of_second)));
    }
    spans[link.next as usize] = bounds;
    undos.push(Undo::Row {
        row: link.vertex,
        point: link.next,
        minus: link.minus,
        low_of_row: common.low_of_second,
        high_of_row: common.high_of_second,
    })?;
    Ok(None)
}

// The multipliers of a row and its last point, whose spans do not meet.
fn clash_of(link: Link, low_of_row: bool) -> Clash
    ensures row { result.row ≡ link.vertex }
    ensures point { result.point ≡ link.next }
    ensures row_by { result.row_by ≡ row_clash low_of_row link.minus }
    ensures point_by { result.point_by ≡ point_clash low_of_row }
{
    Clash {
        row: link.vertex,
        row_by: if low_of_row == link.minus { -1 } else { 1 },
        point: link.next,
        point_by: if low_of_row { -1 } else { 1 },
    }
}
