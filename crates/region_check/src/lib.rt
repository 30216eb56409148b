// Questions 10 to 12 of a region whose rings have passed 4 to 9.
#![tactic(auto)]

ghost use Rattle.std.specs.Prelude.{◌≡◌};
ghost use Rattle.ring_contain.specs.Contains;
ghost use Rattle.offset.specs.Clear;
ghost use Rattle.region.specs.Checks;
ghost use Rattle.region.specs.Regions;
ghost use Rattle.region_check.specs.Apart;

use error::Refusal;
use plane::PlanarPoint;

// Whether p lies outside of the ring, where `outward` is asked for, else inside.
pub(crate) fn lies(outward: bool, ps: &[f64], n: usize, p: PlanarPoint) -> bool
    ensures { result ≡ Clear.right_side outward (Contains.ring_contains ps.now n p) }
{
    offset_clear::right_side(outward, ring_contain::ring_contains(ps, n, p))
}

// Whether every vertex of the second ring lies inside the first.
pub(crate) fn all_inside(ps: &[f64], n: usize, qs: &[f64], m: usize) -> bool
    ensures { result ≡ Clear.every_vertex (Checks.inside_of ps.now n) qs.now m }
{
    (0..m).all(|k| lies(false, ps, n, ring::vertex_at(qs, k)))
}

// Question 11 of one hole: every vertex inside the outer ring, and no edge that meets it.
pub(crate) fn hole_free(ps: &[f64], n: usize, qs: &[f64], m: usize) -> bool
    ensures { result ≡ Checks.hole_free ps.now n qs.now m }
{
    all_inside(ps, n, qs, m) && !ring_cross::rings_meet(ps, n, qs, m)
}

// Question 11 of hole k.
pub(crate) fn hole_fits(ps: &[f64], n: usize, hs: &[f64], cs: &[usize], k: usize) -> bool
    ensures { result ≡ Apart.hole_fits ps.now n hs.now cs.now k }
{
    hole_free(
        ps,
        n,
        region_given::hole_points(hs, k),
        region_given::count_at(cs, k),
    )
}

// The first hole that is not free of the outer ring is refused.
pub(crate) fn check_holes(ps: &[f64], n: usize, hs: &[f64], cs: &[usize], h: usize) -> Refusal
    ensures { result ≡ Checks.check_holes (Regions.region_of ps.now n hs.now cs.now h) }
{
    for k in 0..h {
        if !hole_fits(ps, n, hs, cs, k) {
            return Refusal::HoleOutside(k);
        }
    }
    Refusal::Granted
}

// Question 12 of two holes: an edge of one meets an edge of the other, or one holds the other's first vertex.
pub(crate) fn holes_touch(ps: &[f64], n: usize, qs: &[f64], m: usize) -> bool
    ensures { result ≡ Checks.holes_touch ps.now n qs.now m }
{
    if ring_cross::rings_meet(ps, n, qs, m) {
        return true;
    }
    let first = ring::vertex_at(ps, 0);
    let second = ring::vertex_at(qs, 0);
    !lies(true, qs, m, first) | !lies(true, ps, n, second)
}

// Question 12 of the holes i and j.
pub(crate) fn pair_touches(hs: &[f64], cs: &[usize], i: usize, j: usize) -> bool
    ensures { result ≡ Apart.pair_touches hs.now cs.now i j }
{
    let n = region_given::count_at(cs, i);
    let m = region_given::count_at(cs, j);
    let first = region_given::hole_points(hs, i);
    let second = region_given::hole_points(hs, j);
    holes_touch(first, n, second, m)
}

// The first hole after hole i that touches it.
pub(crate) fn apart_from(hs: &[f64], cs: &[usize], h: usize, i: usize) -> Refusal
    ensures { result ≡ Apart.apart_from hs.now cs.now h i }
{
    if h <= i {
        return Refusal::Granted;
    }
    let next = i + 1;
    for j in next..h {
        if pair_touches(hs, cs, i, j) {
            return Refusal::HolesTouch(i, j);
        }
    }
    Refusal::Granted
}

// The first two holes that touch are refused.
pub(crate) fn check_apart(hs: &[f64], cs: &[usize], h: usize) -> Refusal
    ensures { result ≡ Apart.check_apart hs.now cs.now h }
{
    for i in 0..h {
        let r = apart_from(hs, cs, h, i);
        if !r.granted() {
            return r;
        }
    }
    Refusal::Granted
}

// Questions 10 to 12 of a region.
pub fn check_region(ps: &[f64], n: usize, hs: &[f64], cs: &[usize], h: usize) -> Refusal
    ensures { result ≡ Checks.check_region (Regions.region_of ps.now n hs.now cs.now h) }
{
    if 8 < h {
        return Refusal::ManyHoles(h);
    }
    let r = check_holes(ps, n, hs, cs, h);
    if r.granted() {
        check_apart(hs, cs, h)
    } else {
        r
    }
}
