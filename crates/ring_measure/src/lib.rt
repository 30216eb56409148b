// The measures of a ring: area, span, perimeter and extent. A ring is a list of numbers, two a vertex.
#![tactic(auto)]

ghost use Rattle.std.specs.Prelude.{◌≡◌};
ghost use Rattle.ring_measure.specs.Measures;

use plane::{Bounds, PlanarPoint};

// Each edge starts where the last one ends.
#[tactic(auto, using(crate::proofs::AreaWalk::walk), unfolding(crate::specs::Measures::open_measures, ring::specs::Ring::edge_end))]
pub fn signed_area(ps: &[f64], n: usize) -> f64
    ensures { result ≡ Measures.signed_area ps.now n }
{
    let first = ring::vertex_at(ps, 0);
    let mut a = plane::sub(first, first);
    let mut s = 0.0;
    for k in 0..n {
        let b = plane::sub(ring::edge_end(ps, n, k), first);
        s += plane::cross(a, b);
        a = b;
    }
    s / 2.0
}

#[tactic(auto, unfolding(crate::specs::Measures::area))]
pub fn area(ps: &[f64], n: usize) -> f64
    ensures { result ≡ Measures.area ps.now n }
{
    math::abs(signed_area(ps, n))
}

// The box that holds v too.
#[tactic(auto, unfolding(crate::specs::Measures::widened))]
pub(crate) fn widened(b: Bounds, v: PlanarPoint) -> Bounds
    ensures { result ≡ Measures.widened b v }
{
    Bounds {
        low: PlanarPoint {
            east: math::min(b.low.east, v.east),
            north: math::min(b.low.north, v.north),
        },
        high: PlanarPoint {
            east: math::max(b.high.east, v.east),
            north: math::max(b.high.north, v.north),
        },
    }
}

#[tactic(auto, unfolding(crate::specs::Measures::bounds_step))]
pub(crate) fn bounds_step(ps: &[f64], k: usize, b: Bounds) -> Bounds
    ensures { result ≡ Measures.bounds_step ps.now k b }
{
    widened(b, ring::vertex_at(ps, k))
}

pub(crate) fn no_bounds() -> Bounds
    ensures { result ≡ Measures.no_bounds }
{
    let top = math::infinity();
    Bounds {
        low: PlanarPoint {
            east: top,
            north: top,
        },
        high: PlanarPoint {
            east: -top,
            north: -top,
        },
    }
}

#[tactic(auto, unfolding(crate::specs::Measures::diagonal))]
pub(crate) fn diagonal(b: Bounds) -> f64
    ensures { result ≡ Measures.diagonal b }
{
    math::hypot(b.high.east - b.low.east, b.high.north - b.low.north)
}

// The diagonal of the bounding box.
#[tactic(auto, using(base::proofs::Laws::counted), unfolding(crate::specs::Measures::span))]
pub fn span(ps: &[f64], n: usize) -> f64
    ensures { result ≡ Measures.span ps.now n }
{
    let mut s = no_bounds();
    for k in 0..n {
        s = bounds_step(ps, k, s);
    }
    diagonal(s)
}

#[tactic(auto, unfolding(crate::specs::Measures::perimeter_step))]
pub(crate) fn perimeter_step(ps: &[f64], n: usize, k: usize, s: f64) -> f64
    ensures { result ≡ Measures.perimeter_step ps.now n k s }
{
    let a = ring::vertex_at(ps, k);
    let b = ring::edge_end(ps, n, k);
    s + plane::length_of(plane::sub(b, a))
}

#[tactic(auto, using(base::proofs::Laws::counted), unfolding(crate::specs::Measures::perimeter))]
pub fn perimeter(ps: &[f64], n: usize) -> f64
    ensures { result ≡ Measures.perimeter ps.now n }
{
    let mut s = 0.0;
    for k in 0..n {
        s = perimeter_step(ps, n, k, s);
    }
    math::distance(s)
}

// The larger coordinate, without its sign.
#[tactic(auto, unfolding(crate::specs::Measures::reach))]
pub(crate) fn reach(v: PlanarPoint) -> f64
    ensures { result ≡ Measures.reach v }
{
    math::max(math::abs(v.east), math::abs(v.north))
}

#[tactic(auto, unfolding(crate::specs::Measures::extent_step))]
pub(crate) fn extent_step(ps: &[f64], k: usize, s: f64) -> f64
    ensures { result ≡ Measures.extent_step ps.now k s }
{
    math::max(s, reach(ring::vertex_at(ps, k)))
}

// The largest coordinate, without its sign.
#[tactic(auto, using(base::proofs::Laws::counted), unfolding(crate::specs::Measures::extent))]
pub fn extent(ps: &[f64], n: usize) -> f64
    ensures { result ≡ Measures.extent ps.now n }
{
    let mut s = 0.0;
    for k in 0..n {
        s = extent_step(ps, k, s);
    }
    s
}
