// Tidying: rings too small, straight vertices, spikes and edges of no length are taken out of the front, one after the other.
#![tactic(auto)]

ghost use Rattle.std.specs.Prelude.{◌≡◌};
ghost use Rattle.front.specs.Tidying;
ghost use Rattle.front.specs.declared.Tidy.TheVariants.{Spike};
ghost use Rattle.front_tidy.specs.Findings;

use front::{Edge, Front, Length, Moving, Tidy};
use plane::PlanarPoint;

// An edge of no length that does not grow.
pub(crate) fn empty(t: f64, l: f64, rate: f64) -> bool
    ensures { result ≡ Tidying.empty t l rate }
{
    (l <= Edge::ON_EDGE * (1.0 + t)) & (rate <= Edge::TIE)
}

// Two directions that face opposite ways, and two that face the same way.
pub(crate) fn opposed(u: PlanarPoint, w: PlanarPoint) -> bool
    ensures { result ≡ Tidying.opposed u w }
{
    1.0 + plane::dot(u, w) < Edge::OPPOSITE
}

pub(crate) fn same_way(u: PlanarPoint, w: PlanarPoint) -> bool
    ensures { result ≡ Tidying.same_way u w }
{
    (math::abs(plane::cross(u, w)) < Edge::PARALLEL) & (0.0 < plane::dot(u, w))
}

// A ring of fewer than three edges, by the edge at a slot and its next.
pub(crate) fn short(slot: usize, e: Edge, after: Edge) -> bool
    ensures { result ≡ Findings.short slot e after }
{
    (e.next == slot) | (after.next == slot)
}

pub(crate) fn tidy_length(slot: usize, t: f64, length: Option<Length>) -> Tidy
    ensures { result ≡ Tidying.tidy_length slot t length }
{
    match length {
        None => Tidy::Settled,
        Some(l) => {
            if empty(t, l.value, l.rate) {
                Tidy::Empty(slot)
            } else {
                Tidy::Settled
            }
        }
    }
}

// What is to be taken out at a slot in a ring of three edges or more, from its edge and the one before it, and its next and the one before
// that.
pub(crate) fn corner_between(
    slot: usize,
    t: f64,
    before: Edge,
    e: Edge,
    beside: Edge,
    after: Edge,
) -> Tidy
    ensures { result ≡ Findings.corner_between slot t before e beside after }
{
    let u = front_lines::direction(front_lines::edge_line(e));
    let w = front_lines::direction(front_lines::edge_line(after));
    if opposed(u, w) {
        return Tidy::Spike(slot);
    }
    if same_way(u, w) {
        return Tidy::Straight(slot);
    }
    let from = front_lines::vertex_by(front_lines::edge_line(before), e, t);
    let to = front_lines::vertex_by(front_lines::edge_line(beside), after, t);
    let length = front_lines::length_between(e, from, to);
    tidy_length(slot, t, length)
}

pub(crate) fn tidy_between(
    slot: usize,
    t: f64,
    before: Edge,
    e: Edge,
    beside: Edge,
    after: Edge,
) -> Tidy
    ensures { result ≡ Findings.tidy_between slot t before e beside after }
{
    if short(slot, e, after) {
        Tidy::SmallRing(slot)
    } else {
        corner_between(slot, t, before, e, beside, after)
    }
}

// Whether there is nothing to take out.
pub fn settled(found: Tidy) -> bool
    ensures { result ≡ Findings.settled found }
{
    matches!(found, Tidy::Settled)
}

// The first live slot at which something is to be taken out, and what.
pub fn find_tidy(edges: &[Edge; 128], t: f64) -> Tidy
    ensures { result ≡ Tidying.find_tidy edges.now t }
{
    for slot in 0..128 {
        let e = edges[slot];
        if e.alive {
            let before = front_lines::edge_at(edges, e.previous);
            let after = front_lines::edge_at(edges, e.next);
            let beside = front_lines::edge_at(edges, after.previous);
            let found = tidy_between(slot, t, before, e, beside, after);
            if !settled(found) {
                return found;
            }
        }
    }
    Tidy::Settled
}

// A ring too small is dropped whole, from its slot on: the walk ends where it comes round or meets a dead edge.
pub fn drop_ring(edges: &mut [Edge; 128], slot: usize)
    ensures { edges.new ≡ Tidying.drop_ring edges.old slot }
{
    let mut at = slot;
    for _ in 0..128usize {
        let next = front_lines::edge_at(edges, at).next;
        front_edges::kill(edges, at);
        if (next == slot) | !front_lines::edge_at(edges, next).alive {
            return;
        }
        at = next;
    }
}

pub(crate) fn midpoint(p: PlanarPoint, q: PlanarPoint) -> PlanarPoint
    ensures { result ≡ Tidying.midpoint p q }
{
    PlanarPoint {
        east: (p.east + q.east) / 2.0,
        north: (p.north + q.north) / 2.0,
    }
}

pub(crate) fn meeting_or(p: PlanarPoint, q: PlanarPoint, place: Option<PlanarPoint>) -> PlanarPoint
    ensures { result ≡ Tidying.meeting_or p q place }
{
    place.unwrap_or(midpoint(p, q))
}

// A spike, or an inlet of no width: both edges go, and the edges on either side, `before` and `after`, meet afresh.
pub(crate) fn drop_both(
    mut edges: [Edge; 128],
    slot: usize,
    next: usize,
    after: usize,
    start: PlanarPoint,
    t: f64,
) -> Front
    ensures { result ≡ Tidying.drop_both edges slot next after start t }
{
    front_edges::remove(&mut edges, next);
    front_edges::remove(&mut edges, slot);
    front_edges::set_start(&mut edges, after, start, t);
    front_edges::altered(edges)
}

pub(crate) fn spike_to(
    edges: [Edge; 128],
    slot: usize,
    before: usize,
    next: usize,
    after: usize,
    t: f64,
    p: PlanarPoint,
    to: Option<Moving>,
) -> Front
    ensures { result ≡ Tidying.spike_to edges slot before next after t p to }
{
    let Some(to) = to else {
        return front_edges::stalled(edges);
    };
    let a = front_lines::edge_at(&edges, before);
    let b = front_lines::edge_at(&edges, after);
    let place = front_lines::meeting(front_lines::edge_line(a), front_lines::edge_line(b), t);
    drop_both(edges, slot, next, after, meeting_or(p, to.at, place), t)
}

// The spike at a slot: the edge there and its next.
pub fn drop_spike(edges: [Edge; 128], slot: usize, t: f64) -> Front
    ensures { result ≡ Tidying.tidy_by edges t (Spike slot) }
{
    let Some(from) = front_edges::vertex(&edges, slot, t) else {
        return front_edges::stalled(edges);
    };
    let e = front_lines::edge_at(&edges, slot);
    let after = front_lines::edge_at(&edges, e.next).next;
    let to = front_edges::vertex(&edges, after, t);
    spike_to(edges, slot, e.previous, e.next, after, t, from.at, to)
}
