// The nearest point of a boundary.
#![tactic(auto)]

ghost use Rattle.std.specs.Prelude.{◌≡◌};
ghost use Rattle.ring_near.specs.Near;

use plane::PlanarPoint;

// Distance to the nearest point of a boundary, and that point.
#[derive(Clone, Copy)]
pub struct Nearest {
    pub gap: f64,
    pub foot: PlanarPoint,
}

// The nearest foot so far, the vector to it from the point, and the vector's squared length as computed.
#[derive(Clone, Copy)]
pub struct Lead {
    pub offset: PlanarPoint,
    pub square: f64,
    pub foot: PlanarPoint,
}

// Of two squared lengths as computed, w is clearly the larger: by more than what rounding can do.
pub fn clearly(v: f64, w: f64) -> bool
    ensures { result ≡ Near.clearly v w }
{
    (1.0000000009313226 * v < w) & (9.332636185032189e-302 < w)
}

pub(crate) fn lead_to(p: PlanarPoint, q: PlanarPoint) -> Lead
    ensures { result ≡ Near.lead_to p q }
{
    let offset = plane::sub(q, p);
    Lead {
        offset,
        square: plane::dot(offset, offset),
        foot: q,
    }
}

// Before the first edge: p itself, infinitely far.
pub(crate) fn no_lead(p: PlanarPoint) -> Lead
    ensures { result ≡ Near.no_lead p }
{
    let top = math::infinity();
    Lead {
        offset: PlanarPoint {
            east: top,
            north: 0.0,
        },
        square: top,
        foot: p,
    }
}

// The candidate where its root is the smaller. Equal vectors need no roots.
pub(crate) fn closer(candidate: Lead, best: Lead) -> Lead
    ensures { result ≡ Near.closer candidate best }
{
    if plane::same(candidate.offset, best.offset) {
        return best;
    }
    let gap = plane::length_of(candidate.offset);
    let least = plane::length_of(best.offset);
    if gap < least { candidate } else { best }
}

// The candidate where it is nearer. Roots are taken only where the squares do not tell.
pub(crate) fn leader(candidate: Lead, best: Lead) -> Lead
    ensures { result ≡ Near.leader candidate best }
{
    if clearly(best.square, candidate.square) {
        return best;
    }
    if clearly(candidate.square, best.square) {
        return candidate;
    }
    closer(candidate, best)
}

// The lead after the edge ab.
pub(crate) fn lead_between(p: PlanarPoint, a: PlanarPoint, b: PlanarPoint, best: Lead) -> Lead
    ensures { result ≡ Near.lead_between p a b best }
{
    leader(lead_to(p, segment::closest_on_segment(p, a, b)), best)
}

// What a lead stands for.
pub(crate) fn reached(s: Lead) -> Nearest
    ensures { result ≡ Near.reached s }
{
    Nearest {
        gap: plane::length_of(s.offset),
        foot: s.foot,
    }
}

pub fn nearest_to(ps: &[f64], n: usize, p: PlanarPoint) -> Nearest
    ensures { result ≡ Near.nearest ps.now n p }
{
    let mut a = ring::vertex_at(ps, 0);
    let mut s = no_lead(p);
    for k in 0..n {
        let b = ring::edge_end(ps, n, k);
        s = lead_between(p, a, b, s);
        a = b;
    }
    reached(s)
}
