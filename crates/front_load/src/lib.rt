// The rings of a shape are loaded into the front, edge by edge.
#![tactic(auto)]

ghost use Rattle.std.specs.Prelude.{◌≡◌, ◌+◌, ◌^◌, ◌<◌};
ghost use Rattle.front.specs.Lines;
ghost use Rattle.front.specs.Loading;
ghost use Rattle.ring.specs.Ring;
ghost use Rattle.front_load.specs.Next;

use error::Refusal;
use front::{Edge, Line, Loaded};
use plane::PlanarPoint;

// Vertex k of a ring that is walked forwards or backwards, relative to the origin.
pub(crate) fn load_vertex(
    ps: &[f64],
    n: usize,
    back: bool,
    origin: PlanarPoint,
    k: usize,
) -> PlanarPoint
    ensures { result ≡ Loading.load_vertex ps.now n back origin k }
{
    let at = base::choose(back, base::less(base::less(n, 1), k), k);
    plane::sub(ring::vertex_at(ps, at), origin)
}

// The line of edge k, from its start vertex to the next.
pub(crate) fn load_line(
    ps: &[f64],
    n: usize,
    back: bool,
    origin: PlanarPoint,
    k: usize,
    a: PlanarPoint,
) -> Option<Line>
    ensures { result ≡ Lines.through a (Loading.load_vertex ps.now n back origin (Ring.following n k)) }
{
    let b = load_vertex(ps, n, back, origin, ring::following(n, k));
    front_lines::through(a, b)
}

// Edge k of a ring of n, whose first edge stands in the slot `first`.
pub(crate) fn loaded_edge(line: Line, first: usize, n: usize, k: usize, a: PlanarPoint) -> Edge
    requires k_lt_n { k < n }
    requires n_bound { first + n < 2 ^ 64 }
    ensures { result ≡ Loading.loaded_edge line first n k a }
{
    let before = base::choose(k == 0, base::less(n, 1), base::less(k, 1));
    let after = ring::following(n, k);
    Edge {
        line,
        previous: first + before,
        next: first + after,
        alive: true,
        start: a,
        since: 0.0,
    }
}

// One ring of n vertices, into the slots after those in use. The first refusal ends it.
pub(crate) fn load_ring(
    ps: &[f64],
    n: usize,
    back: bool,
    origin: PlanarPoint,
    d: f64,
    s: &mut Loaded,
)
    requires n_bound { s.old.used + n < 2 ^ 64 }
    requires rings_bound { s.old.rings + 1 < 2 ^ 64 }
    ensures { s.new ≡ Loading.load_ring ps.now n back origin d s.old }
{
    s.rings += 1;
    if !s.refusal.granted() {
        return;
    }
    let first = s.used;
    for k in 0..n {
        let a = load_vertex(ps, n, back, origin, k);
        let Some(line) = load_line(ps, n, back, origin, k, a) else {
            s.refusal = Refusal::Collapses(d);
            return;
        };
        if s.used >= 128 {
            s.refusal = Refusal::Slots(s.used + (n - k));
            return;
        }
        s.edges[s.used] = loaded_edge(line, first, n, k, a);
        s.used += 1;
    }
}

// The front of a shape's outer ring.
pub fn load_outer(ps: &[f64], n: usize, back: bool, origin: PlanarPoint, d: f64) -> Loaded
    ensures { result ≡ Loading.load_ring ps.now n back origin d Loading.loaded_nothing }
{
    let mut s = Loaded {
        edges: [Edge::UNUSED; 128],
        used: 0,
        rings: 0,
        refusal: Refusal::Granted,
    };
    load_ring(ps, n, back, origin, d, &mut s);
    s
}

// One ring more. Numbers that no front has are refused.
pub fn load_next(ps: &[f64], n: usize, back: bool, origin: PlanarPoint, d: f64, s: &mut Loaded)
    ensures { s.new ≡ Next.load_next ps.now n back origin d s.old }
{
    if (s.used < 129) & (s.rings < 129) & (n < 129) {
        load_ring(ps, n, back, origin, d, s);
    } else {
        s.refusal = Refusal::Shape;
    }
}
