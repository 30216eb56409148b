// What is asked of an outline that is handed in, its numbers and how many vertices they are: question 21 first, then 2 of the point; and
// its vertices and edges.
#![tactic(auto)]

ghost use Rattle.std.specs.Prelude.{◌≡◌, cond};
ghost use Rattle.plane.specs.Points;
ghost use Rattle.outline_ask.specs.Queries;

use error::Refusal;
use outline::entry;
use plane::{Containment, PlanarPoint};

// Where a point lies; Outside beside a refusal.
#[derive(Clone, Copy)]
pub struct Placed {
    pub refusal: Refusal,
    pub place: Containment,
}

// A length; 0 beside a refusal.
#[derive(Clone, Copy)]
pub struct Measured {
    pub refusal: Refusal,
    pub value: f64,
}

// A point; (0, 0) beside a refusal.
#[derive(Clone, Copy)]
pub struct Footed {
    pub refusal: Refusal,
    pub point: PlanarPoint,
}

// The nearest point of the boundary and its distance; 0 and (0, 0) beside a refusal.
#[derive(Clone, Copy)]
pub struct Neared {
    pub refusal: Refusal,
    pub distance: f64,
    pub point: PlanarPoint,
}

// An edge; (0, 0) twice beside a refusal.
#[derive(Clone, Copy)]
pub struct Edged {
    pub refusal: Refusal,
    pub start: PlanarPoint,
    pub end: PlanarPoint,
}

// Whether two outlines meet, and by which edges: the outer walk's, then the inner walk's; `swapped` where the second outline is in the
// outer walk. Where they do not meet, and beside a refusal, nothing is told.
#[derive(Clone, Copy)]
pub struct Met {
    pub refusal: Refusal,
    pub meets: bool,
    pub outer: usize,
    pub inner: usize,
    pub swapped: bool,
}

// Where a point lies.
pub fn contains(ps: &[f64], n: usize, p: PlanarPoint) -> Placed
    ensures { result ≡ Queries.contains ps.now n p }
{
    let r = entry::ask_ring(ps, n, p.check());
    if r.granted() {
        Placed {
            refusal: Refusal::Granted,
            place: ring_contain::place_of(ps, n, p.east, p.north),
        }
    } else {
        Placed {
            refusal: r,
            place: Containment::Outside,
        }
    }
}

// The nearest point of the boundary, and its distance; an infinite one reads 0.
pub fn nearest(ps: &[f64], n: usize, p: PlanarPoint) -> Neared
    ensures { result ≡ Queries.nearest ps.now n p }
{
    let r = entry::ask_ring(ps, n, p.check());
    if r.granted() {
        let near = ring_near::nearest_to(ps, n, p);
        Neared {
            refusal: Refusal::Granted,
            distance: math::distance(near.gap),
            point: near.foot,
        }
    } else {
        Neared {
            refusal: r,
            distance: 0.0,
            point: PlanarPoint::ORIGIN,
        }
    }
}

pub fn distance_to_boundary(ps: &[f64], n: usize, p: PlanarPoint) -> Measured
    ensures { result ≡ Queries.distance_to_boundary ps.now n p }
{
    let near = nearest(ps, n, p);
    Measured {
        refusal: near.refusal,
        value: near.distance,
    }
}

pub fn closest_boundary_point(ps: &[f64], n: usize, p: PlanarPoint) -> Footed
    ensures { result ≡ Queries.closest_boundary_point ps.now n p }
{
    let near = nearest(ps, n, p);
    Footed {
        refusal: near.refusal,
        point: near.point,
    }
}

// Vertex k; (0, 0) from n on.
pub fn vertex(ps: &[f64], n: usize, k: usize) -> Footed
    ensures { result ≡ Queries.vertex ps.now n k }
{
    let r = entry::ask_ring(ps, n, Refusal::Granted);
    Footed {
        refusal: r,
        point: within(r.granted() & (k < n), ring::vertex_at(ps, k)),
    }
}

// Edge k, from vertex k to the one after it, the last closing the ring; (0, 0) twice from n on.
pub fn edge(ps: &[f64], n: usize, k: usize) -> Edged
    ensures { result ≡ Queries.edge ps.now n k }
{
    let r = entry::ask_ring(ps, n, Refusal::Granted);
    let there = r.granted() & (k < n);
    Edged {
        refusal: r,
        start: within(there, ring::vertex_at(ps, k)),
        end: within(there, ring::edge_end(ps, n, k)),
    }
}

// v where the test holds, else the origin.
pub(crate) fn within(test: bool, v: PlanarPoint) -> PlanarPoint
    ensures { result ≡ cond test v Points.origin }
{
    base::choose(test, v, PlanarPoint::ORIGIN)
}
