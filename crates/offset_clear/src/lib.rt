// The last checks of an offset and of a region's inset, against one ring of the source: each vertex on the right side of it, and as far
// from it as was asked.
#![tactic(auto)]

ghost use Rattle.std.specs.Prelude.{◌≡◌, ◌&&◌, not};
ghost use Rattle.std.specs.Float.Ieee.{le};
ghost use Rattle.plane.specs.Points;
ghost use Rattle.ring_near.specs.Near;
ghost use Rattle.ring_cross.specs.Meet;
ghost use Rattle.offset.specs.Clear;
ghost use Rattle.offset.specs.Offsets;
ghost use Rattle.offset_clear.specs.Gaps;
ghost use Rattle.offset_clear.specs.Rings;

use plane::{Containment, PlanarPoint};

// An inset's vertices lie inside the source, an outset's outside.
// Stays: no plainer, since each of the three places has an answer of its own.
pub fn right_side(outward: bool, c: Containment) -> bool
    ensures { result ≡ Clear.right_side outward c }
{
    match c {
        Containment::Inside => !outward,
        Containment::OnBoundary => false,
        Containment::Outside => outward,
    }
}

// Whether the gap between p and the edge ab is below `least`. A root is taken only where the squares do not tell.
pub(crate) fn falls_short(p: PlanarPoint, a: PlanarPoint, b: PlanarPoint, least: f64) -> bool
    ensures { result ≡ Gaps.falls_short p a b least }
{
    let v = plane::sub(segment::closest_on_segment(p, a, b), p);
    if ring_near::clearly(least * least, plane::dot(v, v)) {
        return false;
    }
    plane::length_of(v) < least
}

// Whether the gap between p and the ring is at least `least`: no edge falls short of it, and it is a number.
pub(crate) fn gap_reaches(ps: &[f64], n: usize, p: PlanarPoint, least: f64) -> bool
    ensures { result ≡ le least (Near.nearest ps.now n p).gap }
{
    let mut a = ring::vertex_at(ps, 0);
    for k in 0..n {
        let b = ring::edge_end(ps, n, k);
        if falls_short(p, a, b, least) {
            return false;
        }
        a = b;
    }
    least == least
}

// Whether the gap between p and the edge ab is surely below infinity, by its square as computed.
pub(crate) fn surely(p: PlanarPoint, a: PlanarPoint, b: PlanarPoint) -> bool
    ensures { result ≡ Rings.surely p a b }
{
    let v = plane::sub(segment::closest_on_segment(p, a, b), p);
    ring_near::clearly(plane::dot(v, v), math::infinity())
}

// Whether the ring's nearest point is at least `least` from p. Where the first edge's gap is below infinity, that is the least gap, and no
// edge may fall short.
pub(crate) fn ring_reaches(ps: &[f64], n: usize, p: PlanarPoint, least: f64) -> bool
    ensures { result ≡ le least (Points.distance_to p (Near.nearest ps.now n p).foot) }
{
    let a = ring::vertex_at(ps, 0);
    let b = ring::edge_end(ps, n, 0);
    if (0 < n) & surely(p, a, b) {
        return gap_reaches(ps, n, p, least);
    }
    let near = ring_near::nearest_to(ps, n, p);
    least <= p.distance_to(near.foot)
}

// Whether p is at least `least` from the ring: from its nearest point where `foot` is asked for, else by the least gap.
pub(crate) fn reaches(foot: bool, ps: &[f64], n: usize, p: PlanarPoint, least: f64) -> bool
    ensures { result ≡ le least (Rings.away foot ps.now n p) }
{
    if foot {
        return ring_reaches(ps, n, p, least);
    }
    gap_reaches(ps, n, p, least)
}

// Whether p is on the right side of the ring and at least `least` from it. The side is the cheaper question.
pub(crate) fn clear_of(
    foot: bool,
    outward: bool,
    least: f64,
    ps: &[f64],
    n: usize,
    p: PlanarPoint,
) -> bool
    ensures { result ≡ Rings.clear_by foot outward least ps.now n p }
{
    if right_side(outward, ring_contain::ring_contains(ps, n, p)) {
        return reaches(foot, ps, n, p, least);
    }
    false
}

// Whether every vertex of the second ring is clear of the first, and no edge of it meets the first.
pub(crate) fn keeps_clear(
    foot: bool,
    outward: bool,
    least: f64,
    ps: &[f64],
    n: usize,
    qs: &[f64],
    m: usize,
) -> bool
    ensures { result ≡ (Clear.every_vertex (Rings.clear_by foot outward least ps.now n) qs.now m && not
        (Meet.rings_meet qs.now m ps.now n)) }
{
    let clear = (0..m).all(|k| clear_of(foot, outward, least, ps, n, ring::vertex_at(qs, k)));
    clear && !ring_cross::rings_meet(qs, m, ps, n)
}

// Whether the second ring keeps clear of the first and meets it nowhere.
pub fn stays_clear(ps: &[f64], n: usize, qs: &[f64], m: usize, outward: bool, least: f64) -> bool
    ensures { result ≡ (Offsets.keeps_clear outward least ps.now n qs.now m && not
        (Meet.rings_meet qs.now m ps.now n)) }
{
    keeps_clear(false, outward, least, ps, n, qs, m)
}

// The same by the ring's nearest point, for a region's inset.
pub fn ring_stays_clear(
    outward: bool,
    least: f64,
    ps: &[f64],
    n: usize,
    qs: &[f64],
    m: usize,
) -> bool
    ensures { result ≡ Rings.ring_stays_clear outward least ps.now n qs.now m }
{
    keeps_clear(true, outward, least, ps, n, qs, m)
}
