// Whether a ring is simple, by two nested walks over its edges, left at the first pair that crosses or touches; and whether two rings
// have a point in common.
#![tactic(auto)]

ghost use Rattle.std.specs.Prelude.{◌≡◌};
ghost use Rattle.ring_cross.specs.Simple;
ghost use Rattle.ring_cross.specs.Meet;

pub mod pair;

// Two edges: of a ring that crosses or touches itself, the lower one first; or of two rings that meet, the outer walk's, then the inner
// walk's.
#[derive(Clone, Copy)]
pub struct EdgePair {
    pub first: usize,
    pub second: usize,
}

// The first two edges of a ring that cross or touch, if any. Edge i and the next are neighbours, and so are the first edge and the last;
// the pairs between are walked with the box of edge i kept, and edges beside it are passed over. A labelled break leaves both walks: the
// scope names it for this place.
pub fn check_simple(ps: &[f64], n: usize, back: bool) -> Option<EdgePair>
    ensures { result ≡ Simple.check_simple ps.now n back }
{
    let mut found = None;
    'pairs: for i in 0..base::less(n, 1) {
        let a1 = ring::stored_at(ps, n, back, i);
        let a2 = ring::stored_at(ps, n, back, ring::following(n, i));
        let mut b1 = ring::stored_at(ps, n, back, ring::following(n, i + 1));
        if segment::folds_back(a2, a1, b1) {
            found = Some(EdgePair {
                first: i,
                second: i + 1,
            });
            break 'pairs;
        }
        let l = segment::low(a1, a2);
        let h = segment::high(a1, a2);
        let row = n - (i + 1);
        let stop = base::choose(i == 0, row - 1, row);
        for k in 1..stop {
            let j = i + 1 + k;
            let b2 = ring::stored_at(ps, n, back, ring::following(n, j));
            if !segment::passed_over(l, h, b1, b2) {
                if segment::segments_meet(a1, a2, b1, b2) {
                    found = Some(EdgePair {
                        first: i,
                        second: j,
                    });
                    break 'pairs;
                }
            }
            b1 = b2;
        }
        if i == 0 && 1 < row && segment::folds_back(a1, a2, b1) {
            found = Some(EdgePair {
                first: 0,
                second: n - 1,
            });
            break 'pairs;
        }
    }
    found
}

// Whether an edge of the first ring meets one of the second.
pub fn rings_meet(ps: &[f64], n: usize, qs: &[f64], m: usize) -> bool
    ensures { result ≡ Meet.rings_meet ps.now n qs.now m }
{
    pair::ring_pair(ps, n, qs, m).is_some()
}
