// holes.rs, what is asked of a region handed in: question 21 first, then 2 of the point, then the value; and the readers `outer` and
// `holes`, as outlines.
#![tactic(auto)]

ghost use Rattle.std.specs.Prelude.{◌≡◌, cond, false, ◌*◌, ltb, get_or, drop, length};
ghost use Rattle.outline.specs.Outlines;
ghost use Rattle.region.specs.Queries;
ghost use Rattle.region.specs.Regions;
ghost use Rattle.region_ask.specs.Boundary;
ghost use Rattle.region_ask.specs.Reads;

use error::Refusal;
use outline::{NewOutline, Outline, store};
use outline_ask::{Footed, Measured, Neared, Placed};
use plane::{Containment, PlanarPoint};

// Where a point lies; Outside beside a refusal.
pub fn contains(ps: &[f64], n: usize, hs: &[f64], cs: &[usize], h: usize, p: PlanarPoint) -> Placed
    ensures { result ≡ Queries.region_contains (Regions.region_of ps.now n hs.now cs.now h) p }
{
    let r = region_given::ask_region(ps, n, hs, cs, h, p.check());
    if r.granted() {
        Placed {
            refusal: Refusal::Granted,
            place: region_point::region_contains(ps, n, hs, cs, h, p),
        }
    } else {
        Placed {
            refusal: r,
            place: Containment::Outside,
        }
    }
}

// The distance to the nearest edge of the boundary or of a hole; 0 beside a refusal.
pub fn distance_to_boundary(
    ps: &[f64],
    n: usize,
    hs: &[f64],
    cs: &[usize],
    h: usize,
    p: PlanarPoint,
) -> Measured
    ensures { result ≡ Queries.region_distance (Regions.region_of ps.now n hs.now cs.now h) p }
{
    let r = region_given::ask_region(ps, n, hs, cs, h, p.check());
    if r.granted() {
        Measured {
            refusal: Refusal::Granted,
            value: region_point::distance_to_boundary(ps, n, hs, cs, h, p),
        }
    } else {
        Measured {
            refusal: r,
            value: 0.0,
        }
    }
}

// The nearest point of the boundary or of a hole; (0, 0) beside a refusal.
pub fn closest_boundary_point(
    ps: &[f64],
    n: usize,
    hs: &[f64],
    cs: &[usize],
    h: usize,
    p: PlanarPoint,
) -> Footed
    ensures { result ≡ Queries.region_closest (Regions.region_of ps.now n hs.now cs.now h) p }
{
    let r = region_given::ask_region(ps, n, hs, cs, h, p.check());
    if r.granted() {
        Footed {
            refusal: Refusal::Granted,
            point: region_point::closest_boundary_point(ps, n, hs, cs, h, p),
        }
    } else {
        Footed {
            refusal: r,
            point: PlanarPoint::ORIGIN,
        }
    }
}

// The nearest point of the boundary or of a hole, and its distance, in one walk; (0, 0) and 0 beside a refusal.
pub fn nearest(ps: &[f64], n: usize, hs: &[f64], cs: &[usize], h: usize, p: PlanarPoint) -> Neared
    ensures { result ≡ Boundary.region_nearest (Regions.region_of ps.now n hs.now cs.now h) p }
{
    let r = region_given::ask_region(ps, n, hs, cs, h, p.check());
    if r.granted() {
        let point = region_point::closest_boundary_point(ps, n, hs, cs, h, p);
        Neared {
            refusal: Refusal::Granted,
            distance: p.distance_to(point),
            point,
        }
    } else {
        Neared {
            refusal: r,
            distance: 0.0,
            point: PlanarPoint::ORIGIN,
        }
    }
}

// The area inside the outer ring and outside every hole; 0 beside a refusal.
pub fn area(ps: &[f64], n: usize, hs: &[f64], cs: &[usize], h: usize) -> Measured
    ensures { result ≡ Queries.region_area (Regions.region_of ps.now n hs.now cs.now h) }
{
    let r = region_given::ask_region(ps, n, hs, cs, h, Refusal::Granted);
    if r.granted() {
        Measured {
            refusal: Refusal::Granted,
            value: region_measure::area(ps, n, hs, cs, h),
        }
    } else {
        Measured {
            refusal: r,
            value: 0.0,
        }
    }
}

// The length of the outer ring and of every hole; 0 beside a refusal.
pub fn perimeter(ps: &[f64], n: usize, hs: &[f64], cs: &[usize], h: usize) -> Measured
    ensures { result ≡ Queries.region_perimeter (Regions.region_of ps.now n hs.now cs.now h) }
{
    let r = region_given::ask_region(ps, n, hs, cs, h, Refusal::Granted);
    if r.granted() {
        Measured {
            refusal: Refusal::Granted,
            value: region_measure::perimeter(ps, n, hs, cs, h),
        }
    } else {
        Measured {
            refusal: r,
            value: 0.0,
        }
    }
}

// The numbers as an outline's 256: 0 past their end, and what is past the room left out.
pub(crate) fn outline_as(ps: &[f64], n: usize) -> Outline
    ensures { result ≡ Reads.outline_as ps.now n }
{
    let mut points = [0.0; 256];
    outline_lent::write_numbers(ps, ps.len(), &mut points);
    Outline { points, count: n }
}

// The outer ring. 256 numbers are handed back as they are.
pub fn outer(ps: &[f64], n: usize, hs: &[f64], cs: &[usize], h: usize) -> NewOutline
    ensures is { result ≡ Reads.outer_of (Regions.region_of ps.now n hs.now cs.now h) }
    ensures whole { length ps.now ≡ 256 → result ≡ Queries.region_outer
        (Regions.region_of ps.now n hs.now cs.now h) }
{
    if region_given::proper_region(ps, n, hs, cs, h) {
        NewOutline {
            refusal: Refusal::Granted,
            shape: outline_as(ps, n),
        }
    } else {
        store::refused(Refusal::Shape)
    }
}

// Hole k as an outline; from h on the empty one.
pub(crate) fn hole_outline(hs: &[f64], cs: &[usize], h: usize, k: usize) -> Outline
    ensures { result ≡ cond (ltb k h) (Outlines.stored_outline (drop (64 * k) hs.now) (get_or cs.now k 0) false)
        Outlines.no_outline }
{
    if k < h {
        let n = region_given::count_at(cs, k);
        let hole = region_given::hole_points(hs, k);
        store::stored_outline(hole, n, false)
    } else {
        store::no_outline()
    }
}

// Hole k.
pub fn hole(ps: &[f64], n: usize, hs: &[f64], cs: &[usize], h: usize, k: usize) -> NewOutline
    ensures { result ≡ Queries.region_hole (Regions.region_of ps.now n hs.now cs.now h) k }
{
    if region_given::proper_region(ps, n, hs, cs, h) {
        NewOutline {
            refusal: Refusal::Granted,
            shape: hole_outline(hs, cs, h, k),
        }
    } else {
        store::refused(Refusal::Shape)
    }
}
