// The front of a region handed in: its rings loaded, the outer one forwards and the holes backwards, and swept to the distance.
#![tactic(auto)]

ghost use Rattle.std.specs.Prelude.{◌≡◌};
ghost use Rattle.front_sweep.specs.Acts;
ghost use Rattle.region_front.specs.Rings;

use front::{Loaded, Sweep};
use plane::PlanarPoint;

// The outer ring, then hole after hole.
pub(crate) fn load_rings(
    ps: &[f64],
    n: usize,
    hs: &[f64],
    cs: &[usize],
    h: usize,
    origin: PlanarPoint,
    d: f64,
) -> Loaded
    ensures { result ≡ Rings.load_rings ps.now n hs.now cs.now h origin d }
{
    let mut s = front_load::load_outer(ps, n, false, origin, d);
    for k in 0..h {
        let hole = region_given::hole_points(hs, k);
        let count = region_given::count_at(cs, k);
        front_load::load_next(hole, count, true, origin, d, &mut s);
    }
    s
}

// The front's work for a region. A refused front is left out.
pub fn region_sweep(ps: &[f64], n: usize, hs: &[f64], cs: &[usize], h: usize, d: f64) -> Sweep
    ensures { result ≡ Acts.cleared (Rings.sweep_rings ps.now n hs.now cs.now h d) }
{
    let origin = ring::vertex_at(ps, 0);
    front_sweep::advance(d, load_rings(ps, n, hs, cs, h, origin, d))
}
