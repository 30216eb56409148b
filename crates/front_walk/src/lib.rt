// The walk round one ring of a front that has come to the distance.
#![tactic(auto)]

ghost use Rattle.std.specs.Prelude.{◌≡◌};
ghost use Rattle.front.specs.Edges;
ghost use Rattle.front.specs.Finished;
ghost use Rattle.front.specs.Lines;
ghost use Rattle.front_walk.specs.Placed;

use front::{Edge, Line, Walk};
use plane::PlanarPoint;

// A point from the origin of the front, in plane coordinates.
pub(crate) fn from_origin(p: PlanarPoint, origin: PlanarPoint) -> PlanarPoint
    ensures { result ≡ Placed.from_origin p origin }
{
    PlanarPoint {
        east: p.east + origin.east,
        north: p.north + origin.north,
    }
}

// A point, if it is finite.
pub(crate) fn finite_place(p: PlanarPoint) -> Option<PlanarPoint>
    ensures { result ≡ Placed.finite_place p }
{
    (math::finite(p.east) & math::finite(p.north)).then_some(p)
}

// Where the start vertex of an edge lies at offset t, given the line of the edge before it.
pub fn placed(before: Line, e: Edge, t: f64, origin: PlanarPoint) -> Option<PlanarPoint>
    ensures { result ≡ Placed.placed origin (Edges.vertex_by e t (Lines.velocity before (Edges.edge_line e))) }
{
    let vertex = front_lines::vertex_by(before, e, t)?;
    finite_place(from_origin(vertex.at, origin))
}

// The ring through the slot `first`: 128 steps at most. A vertex that is lost ends the walk.
pub fn walk(
    edges: [Edge; 128],
    t: f64,
    origin: PlanarPoint,
    first: usize,
    mut seen: [bool; 128],
) -> Walk
    ensures { result ≡ Finished.walk edges t origin first seen }
{
    let mut points = [0.0; 256];
    let mut at = first;
    for count in 0..128 {
        let e = front_lines::edge_at(&edges, at);
        let before = front_lines::edge_at(&edges, e.previous);
        let Some(p) = placed(front_lines::edge_line(before), e, t, origin) else {
            return Walk {
                at,
                seen,
                points,
                count,
                closed: false,
                lost: true,
            };
        };
        front_lines::set_at(&mut seen, at, true);
        points[2 * count] = p.east;
        points[2 * count + 1] = p.north;
        at = e.next;
        if at == first {
            return Walk {
                at,
                seen,
                points,
                count: count + 1,
                closed: true,
                lost: false,
            };
        }
    }
    Walk {
        at,
        seen,
        points,
        count: 128,
        closed: false,
        lost: false,
    }
}
