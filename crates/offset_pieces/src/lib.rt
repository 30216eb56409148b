// The pieces of an outline's offset: what the finished rings of its front come to.
#![tactic(auto)]

ghost use Rattle.std.specs.Prelude.{◌≡◌};
ghost use Rattle.offset.specs.Offsets;
ghost use Rattle.offset.specs.Rings;
ghost use Rattle.offset_pieces.specs.Numbers;

use error::Refusal;
use front::Edge;
use offset::{Piece, Pieces};
use plane::PlanarPoint;
use ring_check::Checked;

// A refused ring that shrank to nothing at the distance: it has next to no area.
pub(crate) fn vanished(ps: &[f64], n: usize, tolerance: f64, r: Refusal) -> bool
    ensures { result ≡ Rings.vanished ps.now n tolerance r }
{
    if r.degenerate() {
        math::abs(ring_measure::signed_area(ps, n)) <= tolerance * tolerance
    } else {
        false
    }
}

// What a ring comes to, once it is checked.
pub(crate) fn checked_piece(d: f64, tolerance: f64, ps: &[f64], n: usize, c: Checked) -> Piece
    ensures { result ≡ Numbers.checked_piece d tolerance ps.now n c }
{
    if c.refusal.granted() {
        Piece::Whole(c.count, c.back)
    } else if vanished(ps, n, tolerance, c.refusal) {
        Piece::Shrunk
    } else {
        Piece::Failed(c.refusal.offset_failure(d))
    }
}

// What a finished ring comes to, for a room. Its number is its place among the finished rings.
pub fn offset_piece(
    room: usize,
    place: usize,
    d: f64,
    tolerance: f64,
    lost: bool,
    ps: &[f64],
    n: usize,
) -> Piece
    ensures { result ≡ Numbers.ring_piece room place d tolerance lost ps.now n }
{
    if lost {
        Piece::Failed(Refusal::Splits(d))
    } else {
        checked_piece(
            d,
            tolerance,
            ps,
            n,
            ring_check::check_ring(room, place, ps, n),
        )
    }
}

// The side on which a ring's area lies: outward the outline was walked backwards.
pub(crate) fn expected(outward: bool, signed: f64) -> bool
    ensures { result ≡ Offsets.expected outward signed }
{
    if outward { signed < 0.0 } else { 0.0 < signed }
}

pub(crate) fn pieces_refused(r: Refusal) -> Pieces
    ensures { result ≡ Offsets.pieces_refused r }
{
    Pieces {
        refusal: r,
        found: false,
        shape: outline::store::no_outline(),
    }
}

// A ring starts at the first live slot that no ring before it has passed. One piece at most is whole, on the side from which it came; the
// first refusal ends it. Each ring is walked here, in the front that is being read: 128 steps at most.
pub fn pieces(
    edges: [Edge; 128],
    origin: PlanarPoint,
    outward: bool,
    d: f64,
    tolerance: f64,
) -> Pieces
    ensures { result ≡ Offsets.pieces edges origin outward d tolerance }
{
    let mut found = false;
    let mut shape = outline::store::no_outline();
    let mut place = 0;
    let mut seen = [false; 128];
    for slot in 0..128 {
        if edges[slot].alive & !seen[slot] {
            let mut points = [0.0; 256];
            let mut at = slot;
            let mut count = 0;
            let mut closed = false;
            // Stays: no plainer, since the walk ends where it comes round
            while !closed & (count < 128) {
                let own = front_lines::edge_at(&edges, at);
                let before = front_lines::edge_at(&edges, own.previous);
                let line = front_lines::edge_line(before);
                let Some(p) = front_walk::placed(line, own, d, origin) else {
                    return pieces_refused(Refusal::Splits(d));
                };
                front_lines::set_at(&mut seen, at, true);
                points[2 * count] = p.east;
                points[2 * count + 1] = p.north;
                at = own.next;
                count += 1;
                closed = at == slot;
            }
            let piece = offset_piece(128, place, d, tolerance, false, &points, count);
            place += 1;
            match piece {
                Piece::Shrunk => {}
                Piece::Failed(r) => return pieces_refused(r),
                Piece::Whole(n, back) => {
                    let area = ring_measure::signed_area(&points, count);
                    if !expected(outward, area) | found {
                        return pieces_refused(Refusal::Splits(d));
                    }
                    shape = outline::store::stored_outline(&points, n, back);
                    found = true;
                }
            }
        }
    }
    Pieces {
        refusal: Refusal::Granted,
        found,
        shape,
    }
}
