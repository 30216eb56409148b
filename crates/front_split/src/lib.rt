// The split of a front: the vertex that runs into an edge cuts it in two, with a copy of the edge in a free slot.
#![tactic(auto)]

ghost use Rattle.std.specs.Prelude.{◌≡◌};
ghost use Rattle.front.specs.Splitting;
ghost use Rattle.front.specs.Sweeps;
ghost use Rattle.front_split.specs.Begun;

use error::Refusal;
use front::{Edge, Sweep};
use plane::PlanarPoint;

// The first slot that is not alive, and 128 where there is none.
// Stays: `Splitting.free` fixes 128, by which `split_into` knows a full front.
pub(crate) fn free(edges: &[Edge; 128]) -> usize
    ensures { result ≡ Splitting.free edges.now }
{
    for k in 0..128 {
        if !edges[k].alive {
            return k;
        }
    }
    128
}

// Whether two edges are in one ring: a walk from the first passes the second before it comes round.
pub(crate) fn one_ring(edges: &[Edge; 128], a: usize, b: usize) -> bool
    ensures { result ≡ Splitting.one_ring edges.now a b }
{
    let mut at = a;
    for _ in 0..128usize {
        at = front_lines::edge_at(edges, at).next;
        if (at == a) | (at == b) {
            return at != a;
        }
    }
    false
}

// The copy of the edge that is hit starts at the vertex, after the edge before it.
pub(crate) fn copy_of(hit: Edge, before: usize, p: PlanarPoint, t: f64) -> Edge
    ensures { result ≡ Splitting.copy_of hit before p t }
{
    Edge {
        previous: before,
        alive: true,
        start: p,
        since: t,
        ..hit
    }
}

// The vertex follows the edge that it hits.
pub(crate) fn cut(edges: &mut [Edge; 128], v: usize, e: usize, p: PlanarPoint, t: f64)
    ensures { edges.new ≡ Splitting.cut edges.old v e p t }
{
    front_edges::set_previous(edges, v, e);
    front_edges::set_start(edges, v, p, t);
}

// One ring keeps the edge `hit`, at e, and runs on to the vertex; the other takes the copy after `before`, the edge before the vertex.
pub(crate) fn split_linked(
    edges: &mut [Edge; 128],
    v: usize,
    e: usize,
    copy: usize,
    before: usize,
    hit: Edge,
    p: PlanarPoint,
    t: f64,
)
    ensures { edges.new ≡ Splitting.split_linked edges.old v e copy before hit p t }
{
    front_lines::set_at(edges, copy, copy_of(hit, before, p, t));
    front_edges::set_next(edges, before, copy);
    front_edges::set_previous(edges, hit.next, copy);
    front_edges::set_next(edges, e, v);
    cut(edges, v, e, p, t);
}

// A front with nothing counted yet that a refusal ends.
pub(crate) fn refused(edges: [Edge; 128], travelled: f64, r: Refusal) -> Sweep
    ensures { result ≡ Sweeps.sweep_refused (Begun.begun edges travelled) r }
{
    Sweep {
        edges,
        travelled,
        collapses: 0,
        divides: 0,
        joins: 0,
        ended: false,
        refusal: r,
    }
}

// A split front, and whether the split divided a ring or joined two.
pub(crate) fn parted(edges: [Edge; 128], t: f64, together: bool) -> Sweep
    ensures { result ≡ Sweeps.swept_split (Begun.begun edges t) t together edges }
{
    Sweep {
        edges,
        travelled: t,
        collapses: 0,
        divides: base::choose(together, 1, 0),
        joins: base::choose(together, 0, 1),
        ended: false,
        refusal: Refusal::Granted,
    }
}

// A full front of 128 slots cannot split.
pub(crate) fn split_into(
    mut edges: [Edge; 128],
    travelled: f64,
    v: usize,
    e: usize,
    p: PlanarPoint,
    t: f64,
    together: bool,
    copy: usize,
) -> Sweep
    ensures { result ≡ Sweeps.split_into (Begun.begun edges travelled) edges v e p t together copy }
{
    if copy < 128 {
        let at = front_lines::edge_at(&edges, v);
        let hit = front_lines::edge_at(&edges, e);
        split_linked(&mut edges, v, e, copy, at.previous, hit, p, t);
        parted(edges, t, together)
    } else {
        refused(edges, travelled, Refusal::Slots(129))
    }
}

// The start vertex of the edge at v runs into the edge at e.
pub fn split(d: f64, edges: [Edge; 128], travelled: f64, v: usize, e: usize, t: f64) -> Sweep
    ensures { result ≡ Sweeps.split d (Begun.begun edges travelled) edges v e t }
{
    let Some(vertex) = front_edges::vertex(&edges, v, t) else {
        return refused(edges, travelled, Refusal::Splits(d));
    };
    let together = one_ring(&edges, v, e);
    let copy = free(&edges);
    split_into(edges, travelled, v, e, vertex.at, t, together, copy)
}
