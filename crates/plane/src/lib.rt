// Points of the plane, vectors and segments. Each float step stands in the Rust's order, rounded once.
#![tactic(auto)]

ghost use Rattle.std.specs.Prelude.{◌≡◌, cond};
ghost use Rattle.plane.specs.Plane;
ghost use Rattle.plane.specs.Points;

use error::Refusal;

// A point of the plane, or a vector.
#[repr(C)]
#[derive(Clone, Copy, PartialEq)]
pub struct PlanarPoint {
    pub east: f64,
    pub north: f64,
}

// The corners of a box: of a ring, or of a block of its edges.
#[derive(Clone, Copy)]
pub struct Bounds {
    pub low: PlanarPoint,
    pub high: PlanarPoint,
}

// A point, or the refusal of its numbers.
#[derive(Clone, Copy)]
pub struct NewPoint {
    pub refusal: Refusal,
    pub point: PlanarPoint,
}

// Where a point lies relative to an outline or a region.
#[derive(Clone, Copy, PartialEq, Eq)]
pub enum Containment {
    Inside,
    OnBoundary,
    Outside,
}

#[tactic(auto, unfolding(crate::specs::Plane::sub))]
pub fn sub(a: PlanarPoint, b: PlanarPoint) -> PlanarPoint
    ensures { result ≡ Plane.sub a b }
{
    PlanarPoint {
        east: a.east - b.east,
        north: a.north - b.north,
    }
}

#[tactic(auto, unfolding(crate::specs::Plane::dot))]
pub fn dot(a: PlanarPoint, b: PlanarPoint) -> f64
    ensures { result ≡ Plane.dot a b }
{
    a.east * b.east + a.north * b.north
}

#[tactic(auto, unfolding(crate::specs::Plane::cross))]
pub fn cross(a: PlanarPoint, b: PlanarPoint) -> f64
    ensures { result ≡ Plane.cross a b }
{
    a.east * b.north - a.north * b.east
}

// The length of a vector.
#[tactic(auto, unfolding(crate::specs::Points::length_of))]
pub fn length_of(v: PlanarPoint) -> f64
    ensures { result ≡ Points.length_of v }
{
    math::hypot(v.east, v.north)
}

// −0 and 0 are equal points.
#[tactic(auto, unfolding(crate::specs::Plane::same))]
pub fn same(a: PlanarPoint, b: PlanarPoint) -> bool
    ensures { result ≡ Plane.same a b }
{
    a == b
}

impl PlanarPoint {
    // The point (0, 0).
    pub const ORIGIN: PlanarPoint = PlanarPoint {
        east: 0.0,
        north: 0.0,
    };

    // Question 2 of a point: east first.
    #[tactic(auto, unfolding(crate::specs::Points::check_point))]
    pub fn check(self) -> Refusal
        ensures { result ≡ Points.check_point self }
    {
        let north = base::choose(
            math::finite(self.north),
            Refusal::Granted,
            Refusal::NotFinite(1),
        );
        base::choose(math::finite(self.east), north, Refusal::NotFinite(0))
    }

    // The point of these numbers, or the origin beside a refusal.
    #[tactic(auto, using(error::proofs::Laws::granted_is), unfolding(crate::specs::Points::from_metres, crate::specs::Points::point_if))]
    pub fn from_metres(east: f64, north: f64) -> NewPoint
        ensures { result ≡ Points.from_metres east north }
    {
        let given = PlanarPoint { east, north };
        let refusal = given.check();
        NewPoint {
            refusal,
            point: base::choose(refusal.granted(), given, PlanarPoint::ORIGIN),
        }
    }

    // The distance between two points; one that is infinite reads 0.
    #[tactic(auto, unfolding(crate::specs::Points::distance_to))]
    pub fn distance_to(self, other: PlanarPoint) -> f64
        ensures { result ≡ Points.distance_to self other }
    {
        let delta = sub(other, self);
        math::distance(length_of(delta))
    }
}
