// What the functions for C answer: a refusal's number and what it carries as plain numbers, beside the value.
// Stays: C interface: the structs and the numbers in place of enums are what C reads.
#![tactic(auto)]

ghost use Rattle.std.specs.Prelude.{◌≡◌};
ghost use Rattle.error.specs.Carries;
ghost use Rattle.told.specs.Told;

use error::{Carried, Refusal};
use plane::{Containment, PlanarPoint};

// What the check of an outline answers: the refusal's number, 0 where granted, what it carries, and the vertices written.
#[repr(C)]
#[derive(Clone, Copy)]
pub struct LwOutline {
    pub refusal: usize,
    pub ring: usize,
    pub first: usize,
    pub second: usize,
    pub value: f64,
    pub count: usize,
}

// Where a point lies: 0 outside, 1 on the boundary, 2 inside. `first` is the index that 2 carries.
#[repr(C)]
#[derive(Clone, Copy)]
pub struct LwPlace {
    pub refusal: usize,
    pub first: usize,
    pub place: usize,
}

// The nearest point of a boundary, and its distance.
#[repr(C)]
#[derive(Clone, Copy)]
pub struct LwNearest {
    pub refusal: usize,
    pub first: usize,
    pub distance: f64,
    pub east: f64,
    pub north: f64,
}

// The enclosed area.
#[repr(C)]
#[derive(Clone, Copy)]
pub struct LwArea {
    pub refusal: usize,
    pub area: f64,
}

// A length: a perimeter, an extent, a clearance.
#[repr(C)]
#[derive(Clone, Copy)]
pub struct LwLength {
    pub refusal: usize,
    pub length: f64,
}

// Whether two outlines meet, 1 or 0, and by which edges: the outer walk's, then the inner walk's. `swapped` is 1 where the second outline
// is in the outer walk.
#[repr(C)]
#[derive(Clone, Copy)]
pub struct LwMeeting {
    pub refusal: usize,
    pub meets: usize,
    pub outer: usize,
    pub inner: usize,
    pub swapped: usize,
}

// A point.
#[repr(C)]
#[derive(Clone, Copy)]
pub struct LwPoint {
    pub refusal: usize,
    pub east: f64,
    pub north: f64,
}

// An edge, by its two ends.
#[repr(C)]
#[derive(Clone, Copy)]
pub struct LwEdge {
    pub refusal: usize,
    pub start_east: f64,
    pub start_north: f64,
    pub end_east: f64,
    pub end_north: f64,
}

// What an offset answers: the refusal's number and what it carries, the vertices written, and the completed events.
#[repr(C)]
#[derive(Clone, Copy)]
pub struct LwOffset {
    pub refusal: usize,
    pub ring: usize,
    pub first: usize,
    pub second: usize,
    pub value: f64,
    pub count: usize,
    pub collapses: usize,
    pub divides: usize,
    pub joins: usize,
}

// What the check of a region answers: the refusal's number, 0 where granted, what it carries, the rings and the vertices of each. They are
// written, but where a region handed in is only judged.
#[repr(C)]
#[derive(Clone, Copy)]
pub struct LwRegion {
    pub refusal: usize,
    pub ring: usize,
    pub first: usize,
    pub second: usize,
    pub value: f64,
    pub rings: usize,
    pub counts: [usize; 9],
}

// What the inset of a region answers: the same, and the completed events.
#[repr(C)]
#[derive(Clone, Copy)]
pub struct LwRegionOffset {
    pub refusal: usize,
    pub ring: usize,
    pub first: usize,
    pub second: usize,
    pub value: f64,
    pub rings: usize,
    pub counts: [usize; 9],
    pub collapses: usize,
    pub divides: usize,
    pub joins: usize,
}

// What a job line answers: 0 and the bytes written, or 20 and the bytes needed. What the making of a stream's state answers: the bytes that
// it has to have, either way.
#[repr(C)]
#[derive(Clone, Copy)]
pub struct LwLine {
    pub refusal: usize,
    pub count: usize,
}

// How many vertices so many numbers are; an odd count is none.
#[tactic(auto, unfolding(crate::specs::Told::vertices))]
pub fn vertices(numbers: usize) -> usize
    ensures { result ≡ Told.vertices numbers }
{
    base::choose(numbers % 2 == 0, numbers / 2, 0)
}

#[tactic(auto, unfolding(crate::specs::Told::place_number))]
pub(crate) fn place_number(c: Containment) -> usize
    ensures { result ≡ Told.place_number c }
{
    match c {
        Containment::Outside => 0,
        Containment::OnBoundary => 1,
        Containment::Inside => 2,
    }
}

#[tactic(auto, unfolding(crate::specs::Told::outline_answer))]
pub fn outline(refusal: Refusal, count: usize) -> LwOutline
    ensures { result ≡ Told.outline_answer (Carries.carried refusal) count }
{
    let c = Carried::from(refusal);
    LwOutline {
        refusal: c.question,
        ring: c.ring,
        first: c.first,
        second: c.second,
        value: c.value,
        count,
    }
}

#[tactic(auto, unfolding(crate::specs::Told::place_answer))]
pub fn place(refusal: Refusal, p: Containment) -> LwPlace
    ensures { result ≡ Told.place_answer (Carries.carried refusal) p }
{
    let c = Carried::from(refusal);
    LwPlace {
        refusal: c.question,
        first: c.first,
        place: place_number(p),
    }
}

#[tactic(auto, unfolding(crate::specs::Told::nearest_answer))]
pub fn nearest(refusal: Refusal, distance: f64, point: PlanarPoint) -> LwNearest
    ensures { result ≡ Told.nearest_answer (Carries.carried refusal) distance point }
{
    let c = Carried::from(refusal);
    LwNearest {
        refusal: c.question,
        first: c.first,
        distance,
        east: point.east,
        north: point.north,
    }
}

#[tactic(auto, unfolding(crate::specs::Told::area_answer))]
pub fn area(refusal: Refusal, value: f64) -> LwArea
    ensures { result ≡ Told.area_answer (Carries.carried refusal) value }
{
    let c = Carried::from(refusal);
    LwArea {
        refusal: c.question,
        area: value,
    }
}

#[tactic(auto, unfolding(crate::specs::Told::length_answer))]
pub fn length(refusal: Refusal, value: f64) -> LwLength
    ensures { result ≡ Told.length_answer (Carries.carried refusal) value }
{
    let c = Carried::from(refusal);
    LwLength {
        refusal: c.question,
        length: value,
    }
}

#[tactic(auto, unfolding(crate::specs::Told::meeting_answer))]
pub fn meeting(
    refusal: Refusal,
    meets: bool,
    outer: usize,
    inner: usize,
    swapped: bool,
) -> LwMeeting
    ensures { result ≡ Told.meeting_answer (Carries.carried refusal) meets outer inner swapped }
{
    let c = Carried::from(refusal);
    LwMeeting {
        refusal: c.question,
        meets: usize::from(meets),
        outer,
        inner,
        swapped: usize::from(swapped),
    }
}

#[tactic(auto, unfolding(crate::specs::Told::point_answer))]
pub fn point(refusal: Refusal, p: PlanarPoint) -> LwPoint
    ensures { result ≡ Told.point_answer (Carries.carried refusal) p }
{
    let c = Carried::from(refusal);
    LwPoint {
        refusal: c.question,
        east: p.east,
        north: p.north,
    }
}

#[tactic(auto, unfolding(crate::specs::Told::edge_answer))]
pub fn edge(refusal: Refusal, start: PlanarPoint, end: PlanarPoint) -> LwEdge
    ensures { result ≡ Told.edge_answer (Carries.carried refusal) start end }
{
    let c = Carried::from(refusal);
    LwEdge {
        refusal: c.question,
        start_east: start.east,
        start_north: start.north,
        end_east: end.east,
        end_north: end.north,
    }
}

#[tactic(auto, unfolding(crate::specs::Told::offset_answer))]
pub fn offset(
    refusal: Refusal,
    vertices: usize,
    collapses: usize,
    divides: usize,
    joins: usize,
) -> LwOffset
    ensures { result ≡ Told.offset_answer (Carries.carried refusal) vertices collapses divides joins }
{
    let c = Carried::from(refusal);
    LwOffset {
        refusal: c.question,
        ring: c.ring,
        first: c.first,
        second: c.second,
        value: c.value,
        count: vertices,
        collapses,
        divides,
        joins,
    }
}

#[tactic(auto, unfolding(crate::specs::Told::region_answer))]
pub fn region(refusal: Refusal, rings: usize, counts: [usize; 9]) -> LwRegion
    ensures { result ≡ Told.region_answer (Carries.carried refusal) rings counts }
{
    let c = Carried::from(refusal);
    LwRegion {
        refusal: c.question,
        ring: c.ring,
        first: c.first,
        second: c.second,
        value: c.value,
        rings,
        counts,
    }
}

#[tactic(auto, unfolding(crate::specs::Told::inset_answer))]
pub fn inset(
    refusal: Refusal,
    rings: usize,
    counts: [usize; 9],
    collapses: usize,
    divides: usize,
    joins: usize,
) -> LwRegionOffset
    ensures { result ≡ Told.inset_answer (Carries.carried refusal) rings counts collapses divides joins }
{
    let c = Carried::from(refusal);
    LwRegionOffset {
        refusal: c.question,
        ring: c.ring,
        first: c.first,
        second: c.second,
        value: c.value,
        rings,
        counts,
        collapses,
        divides,
        joins,
    }
}

#[tactic(auto, unfolding(crate::specs::Told::line_answer))]
pub fn line(refusal: Refusal, written: usize) -> LwLine
    ensures { result ≡ Told.line_answer refusal (Carries.carried refusal) written }
{
    let c = Carried::from(refusal);
    LwLine {
        refusal: c.question,
        count: base::choose(refusal.granted(), written, c.first),
    }
}
