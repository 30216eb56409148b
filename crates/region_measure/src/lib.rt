// holes.rs, the measures of a region handed in: extent, area and perimeter, the outer ring first and then its holes.
#![tactic(auto)]

ghost use Rattle.std.specs.Prelude.{◌≡◌};
ghost use Rattle.region.specs.Regions;

use region_given::{count_at, hole_points};

// The largest coordinate of any ring, without its sign.
pub fn region_extent(ps: &[f64], n: usize, hs: &[f64], cs: &[usize], h: usize) -> f64
    ensures { result ≡ Regions.region_extent (Regions.region_of ps.now n hs.now cs.now h) }
{
    (0..h).fold(
        ring_measure::extent(ps, n),
        |s, k| math::max(s, ring_measure::extent(hole_points(hs, k), count_at(cs, k))),
    )
}

// The area inside the outer ring and outside every hole.
pub fn area(ps: &[f64], n: usize, hs: &[f64], cs: &[usize], h: usize) -> f64
    ensures { result ≡ Regions.area (Regions.region_of ps.now n hs.now cs.now h) }
{
    let holes = (0..h).fold(
        0.0,
        |s, k| s + ring_measure::area(hole_points(hs, k), count_at(cs, k)),
    );
    math::max(ring_measure::area(ps, n) - holes, 0.0)
}

// The length of the outer ring and of every hole; an infinite one reads 0.
pub fn perimeter(ps: &[f64], n: usize, hs: &[f64], cs: &[usize], h: usize) -> f64
    ensures { result ≡ Regions.perimeter (Regions.region_of ps.now n hs.now cs.now h) }
{
    let holes = (0..h).fold(
        0.0,
        |s, k| s + ring_measure::perimeter(hole_points(hs, k), count_at(cs, k)),
    );
    math::distance(ring_measure::perimeter(ps, n) + holes)
}
