// The vertices of a ring. A ring is a list of numbers, two a vertex; a vertex out of the list is NaN.
#![tactic(auto)]

ghost use Rattle.std.specs.Prelude.{◌≡◌, get_or};
ghost use Rattle.std.specs.Float.{nan};
ghost use Rattle.ring.specs.Ring;

use plane::PlanarPoint;

#[tactic(auto, using(base::proofs::Lists::past_end))]
pub fn number_at(ps: &[f64], i: usize) -> f64
    ensures { result ≡ get_or ps.now i nan }
{
    if i < ps.len() { ps[i] } else { math::nan() }
}

// One test where both numbers are there.
#[tactic(auto, using(base::proofs::Lists::past_end), unfolding(crate::specs::Ring::vertex_at))]
pub fn vertex_at(ps: &[f64], k: usize) -> PlanarPoint
    ensures { result ≡ Ring.vertex_at ps.now k }
{
    if k < ps.len() / 2 {
        return PlanarPoint {
            east: ps[2 * k],
            north: ps[2 * k + 1],
        };
    }
    if k < ps.len() {
        PlanarPoint {
            east: number_at(ps, 2 * k),
            north: number_at(ps, 2 * k + 1),
        }
    } else {
        PlanarPoint {
            east: math::nan(),
            north: math::nan(),
        }
    }
}

// The vertex after vertex k of n: the last is followed by the first.
#[tactic(auto, unfolding(crate::specs::Ring::following))]
pub fn following(n: usize, k: usize) -> usize
    ensures { result ≡ Ring.following n k }
{
    if k < n.saturating_sub(1) { k + 1 } else { 0 }
}

#[tactic(auto, unfolding(crate::specs::Ring::edge_end))]
pub fn edge_end(ps: &[f64], n: usize, k: usize) -> PlanarPoint
    ensures { result ≡ Ring.edge_end ps.now n k }
{
    vertex_at(ps, following(n, k))
}

// Vertex k of the stored ring is this vertex of the given one.
#[tactic(auto, unfolding(crate::specs::Ring::source))]
pub(crate) fn source(n: usize, back: bool, k: usize) -> usize
    ensures { result ≡ Ring.source n back k }
{
    base::choose(back & (0 < k), n.saturating_sub(k), k)
}

#[tactic(auto, unfolding(crate::specs::Ring::stored_at))]
pub fn stored_at(ps: &[f64], n: usize, back: bool, k: usize) -> PlanarPoint
    ensures { result ≡ Ring.stored_at ps.now n back k }
{
    vertex_at(ps, source(n, back, k))
}
