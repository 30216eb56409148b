// Functions for C about regions: those that are drawn, and those handed in as they are written.
#![tactic(auto, unfolding(crate::specs::Exports::open_exports, region_c::specs::Told::open_told))]

ghost use Rattle.std.specs.Prelude.{◌≡◌};
ghost use Rattle.outline_lent.specs.Direct;
ghost use Rattle.region.specs.Queries;
ghost use Rattle.region_ask.specs.Boundary;
ghost use Rattle.region_c.specs.Told;
ghost use Rattle.lizardwire_c.specs.Exports;

use plane::PlanarPoint;
use told::{LwArea, LwLength, LwNearest, LwOutline, LwPlace, LwRegion, LwRegionOffset};

// The region of these numbers, ring after ring, written to `out`: questions 1 to 12 and 27, then 20.
pub fn lw_region(numbers: &[f64], lengths: &[usize], out: &mut [f64]) -> LwRegion
    ensures answered { result ≡ Told.lw_region lengths.now numbers.now out.old }
    ensures written { out.new ≡ Told.lw_region_out lengths.now numbers.now out.old }
{
    let w = region_c::region_into(lengths, numbers, out);
    told::region(w.refusal, w.rings, w.counts)
}

// The inset of the region of these numbers, written to `out`: questions 1 to 12 and 27, then 13 to 19, then 20.
pub fn lw_region_inset(
    numbers: &[f64],
    lengths: &[usize],
    distance: f64,
    out: &mut [f64],
) -> LwRegionOffset
    ensures answered { result ≡ Told.lw_region_inset lengths.now numbers.now distance out.old }
    ensures written { out.new ≡ Told.lw_region_inset_out lengths.now numbers.now distance out.old }
{
    let w = region_c::inset_into(lengths, numbers, distance, out);
    told::inset(
        w.refusal,
        w.rings,
        w.counts,
        w.collapses,
        w.divides,
        w.joins,
    )
}

// The region of given outlines, ring after ring, written to `out`: 21, 10 to 12, then 20.
pub fn lw_given_region(numbers: &[f64], counts: &[usize], out: &mut [f64]) -> LwRegion
    ensures answered { result ≡ Told.lw_given_region counts.now numbers.now out.old }
    ensures written { out.new ≡ Told.lw_given_region_out counts.now numbers.now out.old }
{
    let w = region_c::given_into(counts, numbers, out);
    told::region(w.refusal, w.rings, w.counts)
}

// A given outline as a region without holes, written to `out`: 21, then 20.
pub fn lw_without_holes(outline: &[f64], out: &mut [f64]) -> LwRegion
    ensures answered { result ≡ Told.lw_without_holes outline.now out.old }
    ensures written { out.new ≡ Told.lw_without_holes_out outline.now out.old }
{
    let w = region_c::alone_into(outline, out);
    told::region(w.refusal, w.rings, w.counts)
}

// The rings of a region handed in, and the vertices of each: 21.
pub fn lw_stored_region(numbers: &[f64], counts: &[usize]) -> LwRegion
    ensures { result ≡ Told.lw_stored_region counts.now numbers.now }
{
    let w = region_c::stored(counts, numbers);
    told::region(w.refusal, w.rings, w.counts)
}

// The inset of a region handed in, written to `out`: 21, 13 to 19, then 20.
pub fn lw_stored_region_inset(
    numbers: &[f64],
    counts: &[usize],
    distance: f64,
    out: &mut [f64],
) -> LwRegionOffset
    ensures answered { result ≡ Told.lw_stored_region_inset counts.now numbers.now distance out.old }
    ensures written { out.new ≡ Told.lw_stored_region_inset_out counts.now numbers.now distance out.old }
{
    let w = region_c::stored_inset_into(counts, numbers, distance, out);
    told::inset(
        w.refusal,
        w.rings,
        w.counts,
        w.collapses,
        w.divides,
        w.joins,
    )
}

// Where a point lies in a region handed in: 21, then 2 of the point.
pub fn lw_region_contains(numbers: &[f64], counts: &[usize], east: f64, north: f64) -> LwPlace
    ensures { result ≡ Exports.told_place (Queries.region_contains (Told.handed counts.now numbers.now)
        (record { east = east; north = north })) }
{
    let p = PlanarPoint { east, north };
    let a = region_c::contains(counts, numbers, p);
    told::place(a.refusal, a.place)
}

// The nearest point of the boundary of a region handed in: 21, then 2 of the point.
pub fn lw_region_nearest(numbers: &[f64], counts: &[usize], east: f64, north: f64) -> LwNearest
    ensures { result ≡ Exports.told_nearest (Boundary.region_nearest (Told.handed counts.now numbers.now)
        (record { east = east; north = north })) }
{
    let p = PlanarPoint { east, north };
    let a = region_c::nearest(counts, numbers, p);
    told::nearest(a.refusal, a.distance, a.point)
}

// The area of a region handed in: 21.
pub fn lw_region_area(numbers: &[f64], counts: &[usize]) -> LwArea
    ensures { result ≡ Told.told_measure (Queries.region_area (Told.handed counts.now numbers.now)) }
{
    let a = region_c::area(counts, numbers);
    told::area(a.refusal, a.value)
}

// The length of the boundary of a region handed in: 21.
pub fn lw_region_perimeter(numbers: &[f64], counts: &[usize]) -> LwLength
    ensures { result ≡ Exports.told_length (Queries.region_perimeter (Told.handed counts.now numbers.now)) }
{
    let a = region_c::perimeter(counts, numbers);
    told::length(a.refusal, a.value)
}

// The outer ring of a region handed in, written to `out`: 21, then 20.
pub fn lw_region_outer(numbers: &[f64], counts: &[usize], out: &mut [f64]) -> LwOutline
    ensures answered { result ≡ Told.told_ring (Direct.told (Queries.region_outer (Told.handed counts.now numbers.now))
        out.old) }
    ensures written { out.new ≡ Direct.over_outline (Queries.region_outer (Told.handed counts.now numbers.now))
        out.old }
{
    let a = region_c::outer_into(counts, numbers, out);
    told::outline(a.refusal, a.count)
}

// Hole k of a region handed in, written to `out`: 21, then 20. Where there are no more than k, nothing is written.
pub fn lw_region_hole(numbers: &[f64], counts: &[usize], k: usize, out: &mut [f64]) -> LwOutline
    ensures answered { result ≡ Told.told_ring (Told.hole_told (Told.handed counts.now numbers.now) k out.old) }
    ensures written { out.new ≡ Told.hole_over (Told.handed counts.now numbers.now) k out.old }
{
    let a = region_c::hole_into(counts, numbers, k, out);
    told::outline(a.refusal, a.count)
}
