// Where two rings meet (R-3): the ring of fewer vertices in the outer walk, the other in the inner one. What lies beside a ring's box meets
// none of its edges: rings whose boxes lie apart are not walked, the inner ring's edges beside the outer ring's box are left out before
// the walk, and an edge of the outer walk beside the inner ring's box is passed over.
ghost use Rattle.std.specs.Prelude.{◌≡◌, ◌≤◌, None};
ghost use Rattle.base.specs.Loop.{rounds};
ghost use Rattle.ring_cross.specs.LeftOut;
ghost use Rattle.ring_cross.specs.Pair;

use crate::EdgePair;
use plane::{Bounds, PlanarPoint};

// How many edges are listed, all below `stop`; from there on each edge is asked.
#[derive(Clone, Copy)]
pub(crate) struct Listed {
    pub count: usize,
    pub stop: usize,
}

// Whether the second ring, of m vertices, is in the outer walk.
pub fn second_outer(n: usize, m: usize) -> bool
    ensures { result ≡ Pair.second_outer n m }
{
    m < n
}

// The box of the vertices. A NaN is passed by: each vertex is the first operand of `low` and `high`.
pub(crate) fn corners(ps: &[f64], n: usize) -> Bounds
    ensures { LeftOut.Framed ps.now n result.low result.high }
{
    let mut low = ring::vertex_at(ps, 0);
    let mut high = low;
    for k in 0..n {
        let v = ring::vertex_at(ps, k);
        low = segment::low(v, low);
        high = segment::high(v, high);
    }
    Bounds { low, high }
}

// Lists the edges that do not lie beside a box, of as many of the ring's edges as the list has room for. Where that would be all of them,
// none is listed: they are as well asked one after the other.
pub(crate) fn list_near(
    qs: &[f64],
    m: usize,
    low: PlanarPoint,
    high: PlanarPoint,
    edges: &mut [usize],
) -> Listed
    ensures { LeftOut.ListsTo m (LeftOut.MissedBy qs.now m low high) edges.new result.count result.stop }
{
    let stop = base::choose(m < edges.len(), m, edges.len());
    let mut b1 = ring::vertex_at(qs, 0);
    let mut count = 0usize;
    for k in 0..stop {
        let b2 = ring::edge_end(qs, m, k);
        if !segment::passed_over(low, high, b1, b2) {
            edges[count] = k;
            count += 1;
        }
        b1 = b2;
    }
    let all = count == stop;
    Listed {
        count: base::choose(all, 0, count),
        stop: base::choose(all, 0, stop),
    }
}

// The first listed edge that edge i of the outer walk, from a1 to a2, meets. An edge beside its box is passed over.
pub(crate) fn first_listed(
    qs: &[f64],
    m: usize,
    edges: &[usize],
    count: usize,
    stop: usize,
    i: usize,
    a1: PlanarPoint,
    a2: PlanarPoint,
) -> Option<EdgePair>
    requires { LeftOut.Lists (LeftOut.Missed qs.now m a1 a2) edges.now count stop }
    ensures { result ≡ rounds (Pair.edge_step qs.now m i a1 a2) stop None }
{
    let low = segment::low(a1, a2);
    let high = segment::high(a1, a2);
    for t in 0..count {
        let k = edges[t];
        let b1 = ring::vertex_at(qs, k);
        let b2 = ring::edge_end(qs, m, k);
        if !segment::passed_over(low, high, b1, b2) {
            if segment::segments_meet(a1, a2, b1, b2) {
                return Some(EdgePair {
                    first: i,
                    second: k,
                });
            }
        }
    }
    None
}

// The first edge from `start` on that edge i of the outer walk meets. An edge beside its box is passed over.
pub(crate) fn first_from(
    qs: &[f64],
    m: usize,
    start: usize,
    i: usize,
    a1: PlanarPoint,
    a2: PlanarPoint,
) -> Option<EdgePair>
    requires start_le_m { start ≤ m }
    requires start_value { rounds (Pair.edge_step qs.now m i a1 a2) start None ≡ None }
    ensures { result ≡ Pair.edge_pair qs.now m i a1 a2 }
{
    let low = segment::low(a1, a2);
    let high = segment::high(a1, a2);
    let mut b1 = ring::vertex_at(qs, start);
    for k in start..m {
        let b2 = ring::edge_end(qs, m, k);
        if !segment::passed_over(low, high, b1, b2) {
            if segment::segments_meet(a1, a2, b1, b2) {
                return Some(EdgePair {
                    first: i,
                    second: k,
                });
            }
        }
        b1 = b2;
    }
    None
}

// The first edge that edge i of the outer walk meets: a listed one, or one from `stop` on.
pub(crate) fn first_met(
    qs: &[f64],
    m: usize,
    edges: &[usize],
    count: usize,
    stop: usize,
    i: usize,
    a1: PlanarPoint,
    a2: PlanarPoint,
) -> Option<EdgePair>
    requires { LeftOut.ListsTo m (LeftOut.Missed qs.now m a1 a2) edges.now count stop }
    ensures { result ≡ Pair.edge_pair qs.now m i a1 a2 }
{
    let met = first_listed(qs, m, edges, count, stop, i, a1, a2);
    if met.is_some() {
        return met;
    }
    first_from(qs, m, stop, i, a1, a2)
}

// The walk of two rings in their boxes. The list has room for every edge of an outline.
pub(crate) fn walk_near(
    ps: &[f64],
    n: usize,
    qs: &[f64],
    m: usize,
    outer: Bounds,
    inner: Bounds,
) -> Option<EdgePair>
    requires framed { LeftOut.Framed ps.now n outer.low outer.high }
    requires framed_2 { LeftOut.Framed qs.now m inner.low inner.high }
    ensures { result ≡ Pair.walk ps.now n qs.now m }
{
    let mut edges = [0usize; 128];
    let near = list_near(qs, m, outer.low, outer.high, &mut edges);
    for i in 0..n {
        let a1 = ring::vertex_at(ps, i);
        let a2 = ring::edge_end(ps, n, i);
        if !segment::passed_over(inner.low, inner.high, a1, a2) {
            let met = first_met(qs, m, &edges, near.count, near.stop, i, a1, a2);
            if met.is_some() {
                return met;
            }
        }
    }
    None
}

// The lowest edge of the first ring that meets one of the second, and the lowest that it meets.
pub(crate) fn walk(ps: &[f64], n: usize, qs: &[f64], m: usize) -> Option<EdgePair>
    ensures { result ≡ Pair.walk ps.now n qs.now m }
{
    let outer = corners(ps, n);
    let inner = corners(qs, m);
    if segment::boxes_apart(outer.low, outer.high, inner.low, inner.high) {
        return None;
    }
    walk_near(ps, n, qs, m, outer, inner)
}

// Where two rings meet: the lowest edge of the ring with fewer vertices, of equal ones the first, that meets any of the other, and the
// lowest edge of the other that it meets.
pub fn ring_pair(ps: &[f64], n: usize, qs: &[f64], m: usize) -> Option<EdgePair>
    ensures { result ≡ Pair.ring_pair ps.now n qs.now m }
{
    if second_outer(n, m) {
        return walk(qs, m, ps, n);
    }
    walk(ps, n, qs, m)
}
