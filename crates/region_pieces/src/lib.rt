// The pieces of a region's inset: what the finished rings of its front come to.
#![tactic(auto)]

ghost use Rattle.std.specs.Prelude.{◌≡◌};
ghost use Rattle.region.specs.Insets;
ghost use Rattle.region_pieces.specs.Rooms;

use error::Refusal;
use front::Edge;
use offset::Piece;
use plane::PlanarPoint;
use region::{Region, RegionPieces};

pub(crate) fn region_pieces_refused(r: Refusal) -> RegionPieces
    ensures { result ≡ Insets.region_pieces_refused r }
{
    RegionPieces {
        refusal: r,
        found: false,
        shape: region_given::no_region(),
    }
}

// Whether there is a place for a whole piece: one outer ring, and eight holes.
pub(crate) fn place_refusal(d: f64, outer: bool, found: bool, held: usize) -> Refusal
    ensures { result ≡ Rooms.place_refusal d outer found held }
{
    let split = base::choose(found, Refusal::Splits(d), Refusal::Granted);
    let full = base::choose(held < 8, Refusal::Granted, Refusal::ManyPieces(9));
    base::choose(outer, split, full)
}

// A ring starts at the first live slot that no ring before it has passed. One whose area is above 0 is the outer one, any other is a hole;
// the first refusal ends it.
pub fn region_pieces(
    edges: [Edge; 128],
    origin: PlanarPoint,
    d: f64,
    tolerance: f64,
) -> RegionPieces
    ensures { result ≡ Insets.region_pieces edges origin d tolerance }
{
    let mut found = false;
    let mut ring = outline::store::no_outline();
    let mut points = [0.0; 512];
    let mut counts = [0; 8];
    let mut held = 0;
    let mut place = 0;
    let mut seen = [false; 128];
    for slot in 0..128 {
        let e = edges[slot];
        if e.alive & !seen[slot] {
            let w = front_walk::walk(edges, d, origin, slot, seen);
            let outer = 0.0 < ring_measure::signed_area(&w.points, w.count);
            let room = base::choose(outer, 128, 32);
            let piece = offset_pieces::offset_piece(
                room, place, d, tolerance, w.lost, &w.points, w.count,
            );
            seen = w.seen;
            place += 1;
            match piece {
                Piece::Shrunk => {}
                Piece::Failed(r) => return region_pieces_refused(r),
                Piece::Whole(n, back) => {
                    let r = place_refusal(d, outer, found, held);
                    if !r.granted() {
                        return region_pieces_refused(r);
                    }
                    if outer {
                        ring = outline::store::stored_outline(&w.points, n, back);
                        found = true;
                    } else {
                        region_given::put_hole(&w.points, n, back, held, &mut points, &mut counts);
                        held += 1;
                    }
                }
            }
        }
    }
    RegionPieces {
        refusal: Refusal::Granted,
        found,
        shape: Region {
            outer: ring,
            points,
            counts,
            holes: held,
        },
    }
}
