// The edges of the front: stores and whole actions, where the array lies. A link that leads out of the front reads the unused edge, and a
// store there is left out.
#![tactic(auto)]

ghost use Rattle.std.specs.Prelude.{◌≡◌};
ghost use Rattle.front.specs.Edges;

use front::{Edge, Front, Moving};
use plane::PlanarPoint;

// The edge in a slot with another next, previous or start vertex, as of offset t, or dead.
pub fn set_next(edges: &mut [Edge; 128], k: usize, n: usize)
    ensures { edges.new ≡ Edges.set_next edges.old k n }
{
    if k < 128 {
        edges[k].next = n;
    }
}

pub fn set_previous(edges: &mut [Edge; 128], k: usize, n: usize)
    ensures { edges.new ≡ Edges.set_previous edges.old k n }
{
    if k < 128 {
        edges[k].previous = n;
    }
}

pub fn set_start(edges: &mut [Edge; 128], k: usize, p: PlanarPoint, t: f64)
    ensures { edges.new ≡ Edges.set_start edges.old k p t }
{
    if k < 128 {
        edges[k] = Edge {
            start: p,
            since: t,
            ..edges[k]
        };
    }
}

pub fn kill(edges: &mut [Edge; 128], k: usize)
    ensures { edges.new ≡ Edges.kill edges.old k }
{
    if k < 128 {
        edges[k].alive = false;
    }
}

// The start vertex of an edge at offset t, and its velocity.
pub fn vertex(edges: &[Edge; 128], slot: usize, t: f64) -> Option<Moving>
    ensures { result ≡ Edges.vertex edges.now slot t }
{
    let e = front_lines::edge_at(edges, slot);
    let before = front_lines::edge_at(edges, e.previous);
    front_lines::vertex_by(front_lines::edge_line(before), e, t)
}

// The front after a step that changed it, and after one that met a vertex without a velocity.
pub fn altered(edges: [Edge; 128]) -> Front
    ensures { result ≡ Edges.altered edges }
{
    Front {
        edges,
        stalled: false,
        changed: true,
    }
}

pub fn stalled(edges: [Edge; 128]) -> Front
    ensures { result ≡ Edges.stalled edges }
{
    Front {
        edges,
        stalled: true,
        changed: true,
    }
}

// Unlinks an edge from its ring: its neighbours are linked to each other, and it is dead.
pub fn remove(edges: &mut [Edge; 128], slot: usize)
    ensures { edges.new ≡ Edges.remove edges.old slot }
{
    let gone = front_lines::edge_at(edges, slot);
    set_next(edges, gone.previous, gone.next);
    set_previous(edges, gone.next, gone.previous);
    kill(edges, slot);
}
