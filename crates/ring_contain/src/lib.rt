// Where a point lies: by the crossings of a ray to the east, the boundary asked first.
#![tactic(auto)]

ghost use Rattle.std.specs.Prelude.{◌≡◌, cond};
ghost use Rattle.ring_contain.specs.Contains;

use plane::{Containment, PlanarPoint};

// Whether the ray from p to the east passes the edge ab, which is half-open in north.
pub(crate) fn passes(a: PlanarPoint, b: PlanarPoint, p: PlanarPoint) -> bool
    ensures { result ≡ Contains.passes a b p }
{
    let east = a.east + (p.north - a.north) / (b.north - a.north) * (b.east - a.east);
    ((p.north < a.north) != (p.north < b.north)) & (p.east < east)
}

// Whether a point of the north p is south of both ends of an edge, or north of both: a and b are their norths.
pub(crate) fn beside(a: f64, b: f64, p: f64) -> bool
    ensures { result ≡ Contains.beside a b p }
{
    ((p < a) & (p < b)) | ((a < p) & (b < p))
}

// An edge that the point is beside is left out. `inside`: an odd number of edges was passed so far. The point's numbers come in registers:
// a point in memory that was just stored is slow to read.
pub fn place_of(ps: &[f64], n: usize, east: f64, north: f64) -> Containment
    ensures { result ≡ Contains.ring_contains ps.now n (record { east = east; north = north }) }
{
    let p = PlanarPoint { east, north };
    let mut a = ring::vertex_at(ps, 0);
    let mut inside = false;
    for k in 0..n {
        let b = ring::edge_end(ps, n, k);
        if !beside(a.north, b.north, north) {
            if segment::on_segment(a, b, p) {
                return Containment::OnBoundary;
            }
            inside = inside != passes(a, b, p);
        }
        a = b;
    }
    base::choose(inside, Containment::Inside, Containment::Outside)
}

pub fn ring_contains(ps: &[f64], n: usize, p: PlanarPoint) -> Containment
    ensures { result ≡ Contains.ring_contains ps.now n p }
{
    place_of(ps, n, p.east, p.north)
}
