// A region handed in: the numbers and the count of its outer ring, the flat numbers of its holes, their counts, and how many holes there
// are.
#![tactic(auto)]

ghost use Rattle.std.specs.Prelude.{◌≡◌, cond, ◌*◌, ltb, get_or, drop, length, set};
ghost use Rattle.ring.specs.Store;
ghost use Rattle.region.specs.Regions;
ghost use Rattle.region.specs.Checks;
ghost use Rattle.region.specs.Queries;
ghost use Rattle.region_given.specs.Given;
ghost use Rattle.region_given.specs.Filing;

use error::Refusal;
use outline::entry;
use region::Region;

// How many vertices hole k has.
pub fn count_at(cs: &[usize], k: usize) -> usize
    ensures { result ≡ get_or cs.now k 0 }
{
    cs.get(k).copied().unwrap_or(0)
}

// The numbers from hole k on.
pub fn hole_points<'a>(hs: &'a [f64], k: usize) -> &'a [f64]
    ensures { result.now ≡ drop (64 * k) hs.now }
{
    if k <= hs.len() / 64 {
        let at = 64 * k;
        &hs[at..]
    } else {
        &hs[..0]
    }
}

// A ring of n vertices, stored from the vertex `base` of the flat numbers on, where they are. A vertex past the room is left out. Where the
// base or the numbers are not those of a region's holes, nothing is stored.
pub(crate) fn store_ring(ps: &[f64], n: usize, back: bool, base: usize, out: &mut [f64])
    ensures { out.new ≡ Filing.filed ps.now n back base out.old }
{
    if 256 < base {
        return;
    }
    if out.len() != 512 {
        return;
    }
    let room = 256 - base;
    for k in 0..n {
        let v = ring::stored_at(ps, n, back, k);
        if k < room {
            let place = base + k;
            out[2 * place] = v.east;
            out[2 * place + 1] = v.north;
        }
    }
}

// A ring in the place of hole k: its numbers where they lie, and its count. One past the eighth is left out.
#[tactic(auto, using(crate::proofs::Filed::filed_as))]
pub fn put_hole(
    ps: &[f64],
    n: usize,
    back: bool,
    k: usize,
    points: &mut [f64; 512],
    counts: &mut [usize; 8],
)
    ensures numbers { points.new ≡ cond (ltb k 8) (Store.stored ps.now n back (32 * k) points.old) points.old }
    ensures vertices { counts.new ≡ cond (ltb k 8) (set counts.old k n) counts.old }
{
    if k < 8 {
        store_ring(ps, n, back, 32 * k, points);
        counts[k] = n;
    }
}

pub fn no_region() -> Region
    ensures { result ≡ Regions.no_region }
{
    Region {
        outer: outline::store::no_outline(),
        points: [0.0; 512],
        counts: [0; 8],
        holes: 0,
    }
}

// Question 21 of one hole.
pub(crate) fn proper_hole(hs: &[f64], cs: &[usize], k: usize) -> bool
    ensures { result ≡ Given.proper_hole hs.now cs.now k }
{
    entry::proper(32, hole_points(hs, k), count_at(cs, k))
}

// Question 21 of the first h holes. A hole that is not there has no vertices.
pub fn proper_holes(hs: &[f64], cs: &[usize], h: usize) -> bool
    ensures { result ≡ Given.proper_holes hs.now cs.now h }
{
    (0..h).all(|k| proper_hole(hs, cs, k))
}

// Question 21 of a region.
pub fn proper_region(ps: &[f64], n: usize, hs: &[f64], cs: &[usize], h: usize) -> bool
    ensures { result ≡ Checks.proper_region (Regions.region_of ps.now n hs.now cs.now h) }
{
    h <= 8 && entry::proper(128, ps, n) && proper_holes(hs, cs, h)
}

// 21 is asked first of a region that is handed in.
pub fn ask_region(ps: &[f64], n: usize, hs: &[f64], cs: &[usize], h: usize, r: Refusal) -> Refusal
    ensures { result ≡ Queries.ask_region (Regions.region_of ps.now n hs.now cs.now h) r }
{
    base::choose(proper_region(ps, n, hs, cs, h), r, Refusal::Shape)
}
