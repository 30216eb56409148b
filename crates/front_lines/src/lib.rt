// An edge of the front by its slot, and its line; the velocity and the meeting point of two lines; the start vertex and the length of an
// edge, whose neighbours are given by value.
#![tactic(auto)]

ghost use Rattle.std.specs.Prelude.{◌≡◌, set};
ghost use Rattle.front.specs.Edges;
ghost use Rattle.front.specs.Lines;
ghost use Rattle.front_lines.specs.Between;

use front::{Edge, Length, Line, Moving};
use plane::PlanarPoint;

// The edge in a slot, or the unused one where the slot lies out of the front. The front is only read: nothing of it is copied but the edge.
pub fn edge_at(edges: &[Edge; 128], k: usize) -> Edge
    ensures { result ≡ Edges.edge edges.now k }
{
    if k < 128 { edges[k] } else { Edge::UNUSED }
}

// A store into an array; one out of it is left out.
pub fn set_at<T: Copy, const N: usize>(xs: &mut [T; N], k: usize, x: T)
    ensures { xs.new ≡ set xs.old k x }
{
    if k < N {
        xs[k] = x;
    }
}

// The line of an edge: whoever computes with it reads it here.
pub fn edge_line(e: Edge) -> Line
    ensures { result ≡ Edges.edge_line e }
{
    e.line
}

// `Line::u` and `Line::n` as vectors.
pub fn direction(l: Line) -> PlanarPoint
    ensures { result ≡ Lines.direction l }
{
    PlanarPoint {
        east: l.u0,
        north: l.u1,
    }
}

pub fn normal(l: Line) -> PlanarPoint
    ensures { result ≡ Lines.normal l }
{
    PlanarPoint {
        east: l.n0,
        north: l.n1,
    }
}

// The line that starts at a point, along a unit direction.
pub(crate) fn line_along(start: PlanarPoint, u0: f64, u1: f64) -> Line
    ensures { result ≡ Lines.line_along start u0 u1 }
{
    let left = PlanarPoint {
        east: -u1,
        north: u0,
    };
    let c = plane::dot(left, start);
    Line {
        u0,
        u1,
        n0: -u1,
        n1: u0,
        c,
    }
}

// The line from one point to another, if they differ.
pub fn through(start: PlanarPoint, end: PlanarPoint) -> Option<Line>
    ensures { result ≡ Lines.through start end }
{
    let delta = plane::sub(end, start);
    let length = math::hypot(delta.east, delta.north);
    let l = line_along(start, delta.east / length, delta.north / length);
    (!(length <= 0.0)).then_some(l)
}

// The velocity of the meeting point of two lines.
pub(crate) fn velocity(a: Line, b: Line) -> Option<PlanarPoint>
    ensures { result ≡ Lines.velocity a b }
{
    let scale = 1.0 + plane::dot(normal(a), normal(b));
    let v = PlanarPoint {
        east: (a.n0 + b.n0) / scale,
        north: (a.n1 + b.n1) / scale,
    };
    (!(scale < Edge::OPPOSITE)).then_some(v)
}

// The meeting point of two lines at offset t.
pub fn meeting(a: Line, b: Line, t: f64) -> Option<PlanarPoint>
    ensures { result ≡ Lines.meeting a b t }
{
    let det = plane::cross(normal(a), normal(b));
    let ra = a.c + t;
    let rb = b.c + t;
    let p = PlanarPoint {
        east: (ra * b.n1 - a.n1 * rb) / det,
        north: (a.n0 * rb - ra * b.n0) / det,
    };
    (!(math::abs(det) < Edge::PARALLEL)).then_some(p)
}

// A point that moves for a while.
pub fn moved_by(p: PlanarPoint, v: PlanarPoint, elapsed: f64) -> PlanarPoint
    ensures { result ≡ Edges.moved_by p v elapsed }
{
    PlanarPoint {
        east: p.east + elapsed * v.east,
        north: p.north + elapsed * v.north,
    }
}

// The start vertex of an edge at offset t, and its velocity, given the line of the edge before it.
pub fn vertex_by(before: Line, e: Edge, t: f64) -> Option<Moving>
    ensures { result ≡ Edges.vertex_by e t (Lines.velocity before (Edges.edge_line e)) }
{
    let velocity = velocity(before, edge_line(e))?;
    Some(Moving {
        at: moved_by(e.start, velocity, t - e.since),
        velocity,
    })
}

// An edge's length and its rate of change, given the start vertices of the edge and of its next.
pub fn length_between(e: Edge, from: Option<Moving>, to: Option<Moving>) -> Option<Length>
    ensures { result ≡ Between.length_between e from to }
{
    let from = from?;
    let to = to?;
    let u = direction(edge_line(e));
    Some(Length {
        value: plane::dot(u, plane::sub(to.at, from.at)),
        rate: plane::dot(u, plane::sub(to.velocity, from.velocity)),
    })
}
