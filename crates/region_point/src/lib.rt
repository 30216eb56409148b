// holes.rs, a point and a region handed in: where it lies, and the nearest point of the boundary.
#![tactic(auto)]

ghost use Rattle.std.specs.Prelude.{◌≡◌, ◌*◌, get_or, drop};
ghost use Rattle.ring_contain.specs.Contains;
ghost use Rattle.ring_near.specs.Near;
ghost use Rattle.region.specs.Regions;
ghost use Rattle.region_point.specs.Gaps;

use plane::{Containment, PlanarPoint};
use ring_near::Nearest;

// What a place in a hole is to the region.
// Stays: no plainer, since each of the three places has an answer of its own.
pub(crate) fn in_hole(c: Containment) -> Containment
    ensures { result ≡ Regions.in_hole c }
{
    match c {
        Containment::Inside => Containment::Outside,
        Containment::OnBoundary => Containment::OnBoundary,
        Containment::Outside => Containment::Inside,
    }
}

// Hole k is asked only of a point that is inside so far. A point in a hole is outside the region.
pub(crate) fn contains_step(
    hs: &[f64],
    cs: &[usize],
    p: PlanarPoint,
    k: usize,
    s: Containment,
) -> Containment
    ensures { result ≡ Regions.while_inside s
        (Regions.in_hole (Contains.ring_contains (drop (64 * k) hs.now) (get_or cs.now k 0) p)) }
{
    match s {
        Containment::Inside => {
            let hole = region_given::hole_points(hs, k);
            in_hole(ring_contain::ring_contains(hole, region_given::count_at(cs, k), p))
        }
        Containment::OnBoundary => Containment::OnBoundary,
        Containment::Outside => Containment::Outside,
    }
}

// Where a point lies; a point in a hole is outside the region.
pub fn region_contains(
    ps: &[f64],
    n: usize,
    hs: &[f64],
    cs: &[usize],
    h: usize,
    p: PlanarPoint,
) -> Containment
    ensures { result ≡ Regions.region_contains (Regions.region_of ps.now n hs.now cs.now h) p }
{
    (0..h).fold(
        ring_contain::ring_contains(ps, n, p),
        |s, k| contains_step(hs, cs, p, k, s),
    )
}

// The nearest point of one ring, with its distance.
pub(crate) fn ring_gap(ps: &[f64], n: usize, p: PlanarPoint) -> Nearest
    ensures { result ≡ Gaps.gap_from p (Near.nearest ps.now n p).foot }
{
    let foot = ring_near::nearest_to(ps, n, p).foot;
    Nearest {
        gap: p.distance_to(foot),
        foot,
    }
}

// The candidate where its gap is the smaller.
pub(crate) fn nearer(candidate: Nearest, best: Nearest) -> Nearest
    ensures { result ≡ Near.nearer candidate best }
{
    if candidate.gap < best.gap {
        candidate
    } else {
        best
    }
}

// The nearer of hole k and the best before it.
pub(crate) fn closest_step(
    hs: &[f64],
    cs: &[usize],
    p: PlanarPoint,
    k: usize,
    best: Nearest,
) -> Nearest
    ensures { result ≡ Near.nearer (Gaps.gap_from p (Near.nearest (drop (64 * k) hs.now) (get_or cs.now k 0) p).foot) best }
{
    let hole = region_given::hole_points(hs, k);
    nearer(ring_gap(hole, region_given::count_at(cs, k), p), best)
}

// The nearest point of the boundary or of a hole, with its distance. Each ring's distance is measured once.
pub(crate) fn region_nearest(
    ps: &[f64],
    n: usize,
    hs: &[f64],
    cs: &[usize],
    h: usize,
    p: PlanarPoint,
) -> Nearest
    ensures { result ≡ Gaps.gap_from p
        (Regions.closest_boundary_point (Regions.region_of ps.now n hs.now cs.now h) p) }
{
    let mut s = ring_gap(ps, n, p);
    for k in 0..h {
        s = closest_step(hs, cs, p, k, s);
    }
    s
}

// The point of the boundary or of a hole nearest to a point.
pub fn closest_boundary_point(
    ps: &[f64],
    n: usize,
    hs: &[f64],
    cs: &[usize],
    h: usize,
    p: PlanarPoint,
) -> PlanarPoint
    ensures { result ≡ Regions.closest_boundary_point (Regions.region_of ps.now n hs.now cs.now h) p }
{
    region_nearest(ps, n, hs, cs, h, p).foot
}

// The distance from a point to the nearest edge of the boundary or of a hole.
pub fn distance_to_boundary(
    ps: &[f64],
    n: usize,
    hs: &[f64],
    cs: &[usize],
    h: usize,
    p: PlanarPoint,
) -> f64
    ensures { result ≡ Regions.distance_to_boundary (Regions.region_of ps.now n hs.now cs.now h) p }
{
    region_nearest(ps, n, hs, cs, h, p).gap
}
