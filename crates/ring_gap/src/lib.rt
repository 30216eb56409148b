// How far two rings are from each other: the least gap over the vertices of each against the edges of the other.
#![tactic(auto)]

ghost use Rattle.std.specs.Prelude.{◌≤◌, ◌<◌, ◌≡◌};
ghost use Rattle.ring_gap.specs.Gap;
ghost use Rattle.ring_gap.specs.Blocks;

use plane::{Bounds, PlanarPoint};

// The box, made larger to hold each point of the edge ab that can be the nearest to some point, as rounded.
pub(crate) fn widened(s: Bounds, a: PlanarPoint, b: PlanarPoint) -> Bounds
    ensures { result ≡ Blocks.widened s a b }
{
    let near = plane::sub(
        a,
        PlanarPoint {
            east: 0.0,
            north: 0.0,
        },
    );
    let far = segment::along(a, plane::sub(b, a), 1.0);
    Bounds {
        low: segment::low(far, segment::low(near, segment::low(a, s.low))),
        high: segment::high(far, segment::high(near, segment::high(a, s.high))),
    }
}

// Whether the box lies at least `least` from q by one side alone.
pub(crate) fn beyond(s: Bounds, q: PlanarPoint, least: f64) -> bool
    ensures { result ≡ Blocks.beyond s q least }
{
    let l = plane::sub(s.low, q);
    let h = plane::sub(s.high, q);
    let away = -least;
    (least <= l.east) | ((h.east <= away) | ((least <= l.north) | (h.north <= away)))
}

// Where the block of at most 8 edges ends that starts at `from`.
pub(crate) fn block_end(n: usize, from: usize) -> usize
    requires { from < n }
    ensures { Blocks.Run n from result }
{
    from + (n - from).min(8)
}

// A box that holds the edges from `from` to `to`.
pub(crate) fn block_box(ps: &[f64], n: usize, from: usize, to: usize) -> Bounds
    requires { Blocks.Run n from to }
    ensures { Blocks.Spans ps.now n from to result }
{
    let top = math::infinity();
    let mut a = ring::vertex_at(ps, from);
    let mut s = Bounds {
        low: PlanarPoint {
            east: top,
            north: top,
        },
        high: PlanarPoint {
            east: -top,
            north: -top,
        },
    };
    for k in from..to {
        let b = ring::edge_end(ps, n, k);
        s = widened(s, a, b);
        a = b;
    }
    s
}

// The lesser of the least gap so far and that of q from the edge ab. A root is taken only where the squares do not tell.
pub(crate) fn lesser_gap(q: PlanarPoint, a: PlanarPoint, b: PlanarPoint, least: f64) -> f64
    ensures { result ≡ Blocks.taken least (Blocks.gap_between q a b) }
{
    let offset = plane::sub(segment::closest_on_segment(q, a, b), q);
    if ring_near::clearly(least * least, plane::dot(offset, offset)) {
        return least;
    }
    let gap = plane::length_of(offset);
    base::choose(gap < least, gap, least)
}

// The least gap of q from the edges from `from` to `to`, or `least`.
pub(crate) fn edges_least(
    ps: &[f64],
    n: usize,
    from: usize,
    to: usize,
    q: PlanarPoint,
    least: f64,
) -> f64
    requires { Blocks.Run n from to }
    ensures { Blocks.Least (Blocks.FromEdges ps.now n from to q) least result }
{
    let mut a = ring::vertex_at(ps, from);
    let mut s = least;
    for k in from..to {
        let b = ring::edge_end(ps, n, k);
        s = lesser_gap(q, a, b, s);
        a = b;
    }
    s
}

// The least gap of the second ring's vertices from the edges from `from` to `to`, or `least`. The edges are asked one by one only where
// their box does not lie beyond the least so far.
pub(crate) fn block_least(
    ps: &[f64],
    n: usize,
    from: usize,
    to: usize,
    frame: Bounds,
    qs: &[f64],
    m: usize,
    least: f64,
) -> f64
    requires run { Blocks.Run n from to }
    requires spans { Blocks.Spans ps.now n from to frame }
    ensures { Blocks.Least (Blocks.FromVertices ps.now n from to qs.now m) least result }
{
    let mut s = least;
    for i in 0..m {
        let q = ring::vertex_at(qs, i);
        if !beyond(frame, q, s) {
            s = edges_least(ps, n, from, to, q, s);
        }
    }
    s
}

// The least gap from the first ring, over the vertices of the second, or `least`: block by block of 8 edges.
pub(crate) fn least_from(ps: &[f64], n: usize, qs: &[f64], m: usize, least: f64) -> f64
    ensures { Blocks.Least (Blocks.FromVertices ps.now n 0 n qs.now m) least result }
{
    let mut s = least;
    let mut from = 0usize;
    // Stays: no plainer, since a block ends where the next one starts: steps of 8 would have to find the end beside it.
    while from < n {
        let to = block_end(n, from);
        s = block_least(ps, n, from, to, block_box(ps, n, from, to), qs, m, s);
        from = to;
    }
    s
}

// The least gap over the vertices of each ring against the edges of the other.
pub fn least_between(ps: &[f64], n: usize, qs: &[f64], m: usize) -> f64
    ensures { result ≡ Gap.least_between ps.now n qs.now m }
{
    least_from(qs, m, ps, n, least_from(ps, n, qs, m, math::infinity()))
}
