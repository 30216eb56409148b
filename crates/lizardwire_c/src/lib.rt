// Functions for C and for Rust, over numbers and slices. Each is a call of a proved function, with its contract.
#![tactic(auto, unfolding(crate::specs::Exports::open_exports, outline_lent::specs::Direct::open_direct))]

ghost use Rattle.std.specs.Prelude.{◌≡◌, true, false, length};
ghost use Rattle.hypotenuse.specs.Hypot;
ghost use Rattle.outline.specs.Outlines;
ghost use Rattle.outline_ask.specs.Queries;
ghost use Rattle.lizardwire_c.specs.Exports;

use outline::{Outline, store};
use plane::PlanarPoint;
use told::{LwArea, LwEdge, LwLength, LwMeeting, LwNearest, LwOffset, LwOutline, LwPlace, LwPoint};

pub mod lines;
pub mod regions;

// The outline of the numbers of a shape handed in, as they are.
pub(crate) fn given(numbers: &[f64]) -> Outline
    ensures { result ≡ Exports.given numbers.now }
{
    store::stored_outline(numbers, told::vertices(numbers.len()), false)
}

// The version of the functions for C.
pub fn lw_version() -> usize
    ensures { result ≡ Exports.version }
{
    4
}

// math::hypot.
pub fn lw_hypot(x: f64, y: f64) -> f64
    ensures { result ≡ Hypot.hypot x y }
{
    math::hypot(x, y)
}

// Whether these numbers are an outline, and of how many vertices: questions 1, 2, 4 to 7, 27, 8 and 9.
pub fn lw_check(numbers: &[f64]) -> LwOutline
    ensures { result ≡ Exports.checked (Outlines.outline numbers.now) }
{
    let made = outline_lent::direct::check_outline(numbers);
    told::outline(made.refusal, made.count)
}

// The outline of these numbers, written to `out`: questions 1, 2, 4 to 7, 27, 8 and 9, then 20.
pub fn lw_outline(numbers: &[f64], out: &mut [f64]) -> LwOutline
    ensures answered { result ≡ Exports.told_outline (Outlines.outline numbers.now) out.old }
    ensures written { out.new ≡ Exports.over_outline (Outlines.outline numbers.now) out.old }
{
    let made = outline_lent::direct::write_outline(numbers, out);
    told::outline(made.refusal, made.count)
}

// Where a point lies in an outline handed in: 21, then 2 of the point.
pub fn lw_contains(outline: &[f64], east: f64, north: f64) -> LwPlace
    ensures { result ≡ Exports.told_place (Queries.contains outline.now (Exports.vertices (length outline.now))
        (record { east = east; north = north })) }
{
    let p = PlanarPoint { east, north };
    let a = outline_ask::contains(outline, told::vertices(outline.len()), p);
    told::place(a.refusal, a.place)
}

// The nearest point of the boundary of an outline handed in: 21, then 2 of the point.
pub fn lw_nearest(outline: &[f64], east: f64, north: f64) -> LwNearest
    ensures { result ≡ Exports.told_nearest (Queries.nearest outline.now (Exports.vertices (length outline.now))
        (record { east = east; north = north })) }
{
    let p = PlanarPoint { east, north };
    let a = outline_ask::nearest(outline, told::vertices(outline.len()), p);
    told::nearest(a.refusal, a.distance, a.point)
}

// The area of an outline handed in: 21.
pub fn lw_area(outline: &[f64]) -> LwArea
    ensures { result ≡ Exports.told_area (Queries.area outline.now (Exports.vertices (length outline.now))) }
{
    let a = outline_sizes::area(outline, told::vertices(outline.len()));
    told::area(a.refusal, a.area.value)
}

// The length of the boundary of an outline handed in: 21.
pub fn lw_perimeter(outline: &[f64]) -> LwLength
    ensures { result ≡ Exports.told_length (Queries.perimeter outline.now (Exports.vertices (length outline.now))) }
{
    let a = outline_sizes::perimeter(outline, told::vertices(outline.len()));
    told::length(a.refusal, a.value)
}

// The largest coordinate of an outline handed in, without its sign: 21.
pub fn lw_extent(outline: &[f64]) -> LwLength
    ensures { result ≡ Exports.told_length (Queries.extent outline.now (Exports.vertices (length outline.now))) }
{
    let a = outline_sizes::extent(outline, told::vertices(outline.len()));
    told::length(a.refusal, a.value)
}

// The clearance of two outlines handed in (R-1): 21 of the first, then of the second.
pub fn lw_clearance(first: &[f64], second: &[f64]) -> LwLength
    ensures { result ≡ Exports.told_length (Queries.clearance first.now (Exports.vertices (length first.now))
        second.now (Exports.vertices (length second.now))) }
{
    let n = told::vertices(first.len());
    let m = told::vertices(second.len());
    let a = outline_sizes::clearance(first, n, second, m);
    told::length(a.refusal, a.value)
}

// Whether two outlines handed in meet, and by which edges (R-3): 21 of the first, then of the second.
pub fn lw_meeting(first: &[f64], second: &[f64]) -> LwMeeting
    ensures { result ≡ Exports.told_meeting (Queries.meeting first.now (Exports.vertices (length first.now))
        second.now (Exports.vertices (length second.now))) }
{
    let n = told::vertices(first.len());
    let m = told::vertices(second.len());
    let a = outline_sizes::meeting(first, n, second, m);
    told::meeting(a.refusal, a.meets, a.outer, a.inner, a.swapped)
}

// Vertex k of an outline handed in: 21.
pub fn lw_vertex(outline: &[f64], k: usize) -> LwPoint
    ensures { result ≡ Exports.told_point (Queries.vertex outline.now (Exports.vertices (length outline.now)) k) }
{
    let a = outline_ask::vertex(outline, told::vertices(outline.len()), k);
    told::point(a.refusal, a.point)
}

// Edge k of an outline handed in: 21.
pub fn lw_edge(outline: &[f64], k: usize) -> LwEdge
    ensures { result ≡ Exports.told_edge (Queries.edge outline.now (Exports.vertices (length outline.now)) k) }
{
    let a = outline_ask::edge(outline, told::vertices(outline.len()), k);
    told::edge(a.refusal, a.start, a.end)
}

// The offset of an outline handed in, inward or outward, written to `out`.
pub(crate) fn moved(outline: &[f64], outward: bool, distance: f64, out: &mut [f64]) -> LwOffset
    ensures answered { result ≡ Exports.lw_offset outward outline.now distance out.old }
    ensures written { out.new ≡ Exports.lw_offset_out outward outline.now distance out.old }
{
    let a = offset_run::offset_into(given(outline), outward, distance, out);
    told::offset(a.refusal, a.count, a.collapses, a.divides, a.joins)
}

// The inset of an outline handed in, written to `out`: 21, 13, 14, what the offset answers, then 20.
pub fn lw_inset(outline: &[f64], distance: f64, out: &mut [f64]) -> LwOffset
    ensures answered { result ≡ Exports.lw_offset false outline.now distance out.old }
    ensures written { out.new ≡ Exports.lw_offset_out false outline.now distance out.old }
{
    moved(outline, false, distance, out)
}

// The outset, likewise.
pub fn lw_outset(outline: &[f64], distance: f64, out: &mut [f64]) -> LwOffset
    ensures answered { result ≡ Exports.lw_offset true outline.now distance out.old }
    ensures written { out.new ≡ Exports.lw_offset_out true outline.now distance out.old }
{
    moved(outline, true, distance, out)
}
