// Functions for C about regions: those that are drawn, and those handed in as they are written.
ghost use Rattle.std.specs.Prelude.{◌≡◌};
ghost use Rattle.outline_lent.specs.Direct;
ghost use Rattle.region.specs.Queries;
ghost use Rattle.region_ask.specs.Boundary;
ghost use Rattle.region_c.specs.Told;
ghost use Rattle.lizardwire_c.specs.Exports;

use told::{LwArea, LwLength, LwNearest, LwOutline, LwPlace, LwRegion, LwRegionOffset};

// The region of these numbers, ring after ring, written to `out`: questions 1 to 12 and 27, then 20.
#[unsafe(no_mangle)]
pub extern "C" fn lw_region<'a>(
    numbers: &'a [f64],
    lengths: &'a [usize],
    out: &'a mut [f64],
) -> LwRegion
    ensures answered { result ≡ Told.lw_region lengths.now numbers.now out.old }
    ensures written { out.new ≡ Told.lw_region_out lengths.now numbers.now out.old }
{
    lizardwire_c::regions::lw_region(numbers, lengths, out)
}

// The inset of the region of these numbers, written to `out`: questions 1 to 12 and 27, then 13 to 19, then 20.
#[unsafe(no_mangle)]
pub extern "C" fn lw_region_inset<'a>(
    numbers: &'a [f64],
    lengths: &'a [usize],
    distance: f64,
    out: &'a mut [f64],
) -> LwRegionOffset
    ensures answered { result ≡ Told.lw_region_inset lengths.now numbers.now distance out.old }
    ensures written { out.new ≡ Told.lw_region_inset_out lengths.now numbers.now distance out.old }
{
    lizardwire_c::regions::lw_region_inset(numbers, lengths, distance, out)
}

// The region of given outlines, ring after ring, written to `out`: 21, 10 to 12, then 20.
#[unsafe(no_mangle)]
pub extern "C" fn lw_given_region<'a>(
    numbers: &'a [f64],
    counts: &'a [usize],
    out: &'a mut [f64],
) -> LwRegion
    ensures answered { result ≡ Told.lw_given_region counts.now numbers.now out.old }
    ensures written { out.new ≡ Told.lw_given_region_out counts.now numbers.now out.old }
{
    lizardwire_c::regions::lw_given_region(numbers, counts, out)
}

// A given outline as a region without holes, written to `out`: 21, then 20.
#[unsafe(no_mangle)]
pub extern "C" fn lw_without_holes<'a>(outline: &'a [f64], out: &'a mut [f64]) -> LwRegion
    ensures answered { result ≡ Told.lw_without_holes outline.now out.old }
    ensures written { out.new ≡ Told.lw_without_holes_out outline.now out.old }
{
    lizardwire_c::regions::lw_without_holes(outline, out)
}

// The rings of a region handed in, and the vertices of each: 21.
#[unsafe(no_mangle)]
pub extern "C" fn lw_stored_region<'a>(numbers: &'a [f64], counts: &'a [usize]) -> LwRegion
    ensures { result ≡ Told.lw_stored_region counts.now numbers.now }
{
    lizardwire_c::regions::lw_stored_region(numbers, counts)
}

// The inset of a region handed in, written to `out`: 21, 13 to 19, then 20.
#[unsafe(no_mangle)]
pub extern "C" fn lw_stored_region_inset<'a>(
    numbers: &'a [f64],
    counts: &'a [usize],
    distance: f64,
    out: &'a mut [f64],
) -> LwRegionOffset
    ensures answered { result ≡ Told.lw_stored_region_inset counts.now numbers.now distance out.old }
    ensures written { out.new ≡ Told.lw_stored_region_inset_out counts.now numbers.now distance out.old }
{
    lizardwire_c::regions::lw_stored_region_inset(numbers, counts, distance, out)
}

// Where a point lies in a region handed in: 21, then 2 of the point.
#[unsafe(no_mangle)]
pub extern "C" fn lw_region_contains<'a>(
    numbers: &'a [f64],
    counts: &'a [usize],
    east: f64,
    north: f64,
) -> LwPlace
    ensures { result ≡ Exports.told_place (Queries.region_contains (Told.handed counts.now numbers.now)
        (record { east = east; north = north })) }
{
    lizardwire_c::regions::lw_region_contains(numbers, counts, east, north)
}

// The nearest point of the boundary of a region handed in: 21, then 2 of the point.
#[unsafe(no_mangle)]
pub extern "C" fn lw_region_nearest<'a>(
    numbers: &'a [f64],
    counts: &'a [usize],
    east: f64,
    north: f64,
) -> LwNearest
    ensures { result ≡ Exports.told_nearest (Boundary.region_nearest (Told.handed counts.now numbers.now)
        (record { east = east; north = north })) }
{
    lizardwire_c::regions::lw_region_nearest(numbers, counts, east, north)
}

// The area of a region handed in: 21.
#[unsafe(no_mangle)]
pub extern "C" fn lw_region_area<'a>(numbers: &'a [f64], counts: &'a [usize]) -> LwArea
    ensures { result ≡ Told.told_measure (Queries.region_area (Told.handed counts.now numbers.now)) }
{
    lizardwire_c::regions::lw_region_area(numbers, counts)
}

// The length of the boundary of a region handed in: 21.
#[unsafe(no_mangle)]
pub extern "C" fn lw_region_perimeter<'a>(numbers: &'a [f64], counts: &'a [usize]) -> LwLength
    ensures { result ≡ Exports.told_length (Queries.region_perimeter (Told.handed counts.now numbers.now)) }
{
    lizardwire_c::regions::lw_region_perimeter(numbers, counts)
}

// The outer ring of a region handed in, written to `out`: 21, then 20.
#[unsafe(no_mangle)]
pub extern "C" fn lw_region_outer<'a>(
    numbers: &'a [f64],
    counts: &'a [usize],
    out: &'a mut [f64],
) -> LwOutline
    ensures answered { result ≡ Told.told_ring (Direct.told (Queries.region_outer (Told.handed counts.now numbers.now))
        out.old) }
    ensures written { out.new ≡ Direct.over_outline (Queries.region_outer (Told.handed counts.now numbers.now))
        out.old }
{
    lizardwire_c::regions::lw_region_outer(numbers, counts, out)
}

// Hole k of a region handed in, written to `out`: 21, then 20. Where there are no more than k, nothing is written.
#[unsafe(no_mangle)]
pub extern "C" fn lw_region_hole<'a>(
    numbers: &'a [f64],
    counts: &'a [usize],
    k: usize,
    out: &'a mut [f64],
) -> LwOutline
    ensures answered { result ≡ Told.told_ring (Told.hole_told (Told.handed counts.now numbers.now) k out.old) }
    ensures written { out.new ≡ Told.hole_over (Told.handed counts.now numbers.now) k out.old }
{
    lizardwire_c::regions::lw_region_hole(numbers, counts, k, out)
}
