// The functions for C of include/lizardwire.h, under their own names. Each is the function of `lizardwire_c` of its name, with its
// contract.
#![tactic(auto)]

ghost use Rattle.std.specs.Prelude.{◌≡◌, true, false, length};
ghost use Rattle.hypotenuse.specs.Hypot;
ghost use Rattle.outline.specs.Outlines;
ghost use Rattle.outline_ask.specs.Queries;
ghost use Rattle.lizardwire_c.specs.Exports;

use told::{LwArea, LwEdge, LwLength, LwMeeting, LwNearest, LwOffset, LwOutline, LwPlace, LwPoint};

pub mod lines;
pub mod regions;

// The version of the functions for C.
#[unsafe(no_mangle)]
pub extern "C" fn lw_version() -> usize
    ensures { result ≡ Exports.version }
{
    lizardwire_c::lw_version()
}

// math::hypot.
#[unsafe(no_mangle)]
pub extern "C" fn lw_hypot(x: f64, y: f64) -> f64
    ensures { result ≡ Hypot.hypot x y }
{
    lizardwire_c::lw_hypot(x, y)
}

// Whether these numbers are an outline, and of how many vertices: questions 1, 2, 4 to 7, 27, 8 and 9.
#[unsafe(no_mangle)]
pub extern "C" fn lw_check(numbers: &[f64]) -> LwOutline
    ensures { result ≡ Exports.checked (Outlines.outline numbers.now) }
{
    lizardwire_c::lw_check(numbers)
}

// The outline of these numbers, written to `out`: questions 1, 2, 4 to 7, 27, 8 and 9, then 20.
#[unsafe(no_mangle)]
pub extern "C" fn lw_outline(numbers: &[f64], out: &mut [f64]) -> LwOutline
    ensures answered { result ≡ Exports.told_outline (Outlines.outline numbers.now) out.old }
    ensures written { out.new ≡ Exports.over_outline (Outlines.outline numbers.now) out.old }
{
    lizardwire_c::lw_outline(numbers, out)
}

// Where a point lies in an outline handed in: 21, then 2 of the point.
#[unsafe(no_mangle)]
pub extern "C" fn lw_contains(outline: &[f64], east: f64, north: f64) -> LwPlace
    ensures { result ≡ Exports.told_place (Queries.contains outline.now (Exports.vertices (length outline.now))
        (record { east = east; north = north })) }
{
    lizardwire_c::lw_contains(outline, east, north)
}

// The nearest point of the boundary of an outline handed in: 21, then 2 of the point.
#[unsafe(no_mangle)]
pub extern "C" fn lw_nearest(outline: &[f64], east: f64, north: f64) -> LwNearest
    ensures { result ≡ Exports.told_nearest (Queries.nearest outline.now (Exports.vertices (length outline.now))
        (record { east = east; north = north })) }
{
    lizardwire_c::lw_nearest(outline, east, north)
}

// The area of an outline handed in: 21.
#[unsafe(no_mangle)]
pub extern "C" fn lw_area(outline: &[f64]) -> LwArea
    ensures { result ≡ Exports.told_area (Queries.area outline.now (Exports.vertices (length outline.now))) }
{
    lizardwire_c::lw_area(outline)
}

// The length of the boundary of an outline handed in: 21.
#[unsafe(no_mangle)]
pub extern "C" fn lw_perimeter(outline: &[f64]) -> LwLength
    ensures { result ≡ Exports.told_length (Queries.perimeter outline.now (Exports.vertices (length outline.now))) }
{
    lizardwire_c::lw_perimeter(outline)
}

// The largest coordinate of an outline handed in, without its sign: 21.
#[unsafe(no_mangle)]
pub extern "C" fn lw_extent(outline: &[f64]) -> LwLength
    ensures { result ≡ Exports.told_length (Queries.extent outline.now (Exports.vertices (length outline.now))) }
{
    lizardwire_c::lw_extent(outline)
}

// The clearance of two outlines handed in (R-1): 21 of the first, then of the second.
#[unsafe(no_mangle)]
pub extern "C" fn lw_clearance<'a>(first: &'a [f64], second: &'a [f64]) -> LwLength
    ensures { result ≡ Exports.told_length (Queries.clearance first.now (Exports.vertices (length first.now))
        second.now (Exports.vertices (length second.now))) }
{
    lizardwire_c::lw_clearance(first, second)
}

// Whether two outlines handed in meet, and by which edges (R-3): 21 of the first, then of the second.
#[unsafe(no_mangle)]
pub extern "C" fn lw_meeting<'a>(first: &'a [f64], second: &'a [f64]) -> LwMeeting
    ensures { result ≡ Exports.told_meeting (Queries.meeting first.now (Exports.vertices (length first.now))
        second.now (Exports.vertices (length second.now))) }
{
    lizardwire_c::lw_meeting(first, second)
}

// Vertex k of an outline handed in: 21.
#[unsafe(no_mangle)]
pub extern "C" fn lw_vertex(outline: &[f64], k: usize) -> LwPoint
    ensures { result ≡ Exports.told_point (Queries.vertex outline.now (Exports.vertices (length outline.now)) k) }
{
    lizardwire_c::lw_vertex(outline, k)
}

// Edge k of an outline handed in: 21.
#[unsafe(no_mangle)]
pub extern "C" fn lw_edge(outline: &[f64], k: usize) -> LwEdge
    ensures { result ≡ Exports.told_edge (Queries.edge outline.now (Exports.vertices (length outline.now)) k) }
{
    lizardwire_c::lw_edge(outline, k)
}

// The inset of an outline handed in, written to `out`: 21, 13, 14, what the offset answers, then 20.
#[unsafe(no_mangle)]
pub extern "C" fn lw_inset(outline: &[f64], distance: f64, out: &mut [f64]) -> LwOffset
    ensures answered { result ≡ Exports.lw_offset false outline.now distance out.old }
    ensures written { out.new ≡ Exports.lw_offset_out false outline.now distance out.old }
{
    lizardwire_c::lw_inset(outline, distance, out)
}

// The outset, likewise.
#[unsafe(no_mangle)]
pub extern "C" fn lw_outset(outline: &[f64], distance: f64, out: &mut [f64]) -> LwOffset
    ensures answered { result ≡ Exports.lw_offset true outline.now distance out.old }
    ensures written { out.new ≡ Exports.lw_offset_out true outline.now distance out.old }
{
    lizardwire_c::lw_outset(outline, distance, out)
}
