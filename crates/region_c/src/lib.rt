// Regions for C: those of ring lengths and numbers, and those handed in as they are written. What is asked of them, and what is written of
// them to lent output.
#![tactic(auto, unfolding(crate::specs::Told::open_told, region::specs::Regions::region_of))]

ghost use Rattle.std.specs.Prelude.{◌≡◌, length};
ghost use Rattle.outline_lent.specs.Direct;
ghost use Rattle.region.specs.Checks;
ghost use Rattle.region.specs.Queries;
ghost use Rattle.region.specs.Regions;
ghost use Rattle.region_ask.specs.Boundary;
ghost use Rattle.region_c.specs.Told;

use error::Refusal;
use outline::{NewOutline, store};
use outline_ask::{Measured, Neared, Placed};
use outline_lent::direct::Counted;
use plane::PlanarPoint;
use region::{InsetWritten, NewRegion, Region, RegionWritten};

// A region by its parts, as the questions take it: the outer ring's numbers and how many vertices they are, the holes' numbers, how many
// vertices each has, and how many holes there are.
#[derive(Clone, Copy)]
pub(crate) struct Parts<'a> {
    pub ps: &'a [f64],
    pub n: usize,
    pub hs: &'a [f64],
    pub cs: &'a [usize],
    pub h: usize,
}

pub(crate) fn parts_of(r: &Region) -> Parts
    ensures { Regions.region_of result.ps.now result.n result.hs.now result.cs.now result.h ≡ r.now }
{
    Parts {
        ps: &r.outer.points,
        n: r.outer.count,
        hs: &r.points,
        cs: &r.counts,
        h: r.holes,
    }
}

// No inset: no rings, and no events.
pub(crate) fn inset_refused(r: Refusal) -> InsetWritten
    ensures { result ≡ Told.inset_refused r }
{
    InsetWritten {
        refusal: r,
        rings: 0,
        counts: [0; 9],
        collapses: 0,
        divides: 0,
        joins: 0,
    }
}

// A region that was made, to lent output: what its making refused, then 20. Its parts are taken out one by one: by `parts_of` it is copied.
pub(crate) fn made_into(made: NewRegion, out: &mut [f64]) -> RegionWritten
    ensures answered { result ≡ Told.region_made made out.old }
    ensures written { out.new ≡ Told.region_over made out.old }
{
    let refusal = made.refusal;
    if refusal.granted() {
        let shape = made.shape;
        let outer = shape.outer;
        region_lent::write_region(
            &outer.points,
            outer.count,
            &shape.points,
            &shape.counts,
            shape.holes,
            out,
        )
    } else {
        region_lent::no_rings(refusal)
    }
}

// The region of these numbers, ring after ring: as it is handed in, or checked.
pub(crate) fn region_by(stored: bool, lengths: &[usize], ps: &[f64]) -> NewRegion
    ensures { result ≡ Told.region_by stored lengths.now ps.now }
{
    if stored {
        region_stored::stored(lengths, ps)
    } else {
        region_new::new(lengths, ps)
    }
}

// Its inset to lent output: what its making refused, then 13 to 19, then 20. One function for both, handed the numbers: a region
// would be copied on the way.
pub(crate) fn inset_by(
    stored: bool,
    lengths: &[usize],
    ps: &[f64],
    d: f64,
    out: &mut [f64],
) -> InsetWritten
    ensures answered { result ≡ Told.inset_made (Told.region_by stored lengths.now ps.now) d out.old }
    ensures written { out.new ≡ Told.inset_over (Told.region_by stored lengths.now ps.now) d out.old }
{
    let made = region_by(stored, lengths, ps);
    if made.refusal.granted() {
        region_inset_lent::inset_into(made.shape, d, out)
    } else {
        inset_refused(made.refusal)
    }
}

// The region of these numbers, ring after ring, to lent output: questions 1 to 12 and 27, then 20.
pub fn region_into(lengths: &[usize], ps: &[f64], out: &mut [f64]) -> RegionWritten
    ensures answered { result ≡ Told.region_made (Checks.region lengths.now ps.now) out.old }
    ensures written { out.new ≡ Told.region_over (Checks.region lengths.now ps.now) out.old }
{
    made_into(region_new::new(lengths, ps), out)
}

// Its inset to lent output: questions 1 to 12 and 27, then 13 to 19, then 20.
pub fn inset_into(lengths: &[usize], ps: &[f64], d: f64, out: &mut [f64]) -> InsetWritten
    ensures answered { result ≡ Told.inset_made (Checks.region lengths.now ps.now) d out.old }
    ensures written { out.new ≡ Told.inset_over (Checks.region lengths.now ps.now) d out.old }
{
    inset_by(false, lengths, ps, d, out)
}

// The region of given outlines, ring after ring, to lent output: 21, 10 to 12, then 20.
pub fn given_into(lengths: &[usize], ps: &[f64], out: &mut [f64]) -> RegionWritten
    ensures answered { result ≡ Told.region_made (Told.given_region lengths.now ps.now) out.old }
    ensures written { out.new ≡ Told.region_over (Told.given_region lengths.now ps.now) out.old }
{
    made_into(region_stored::given(lengths, ps), out)
}

// A given outline as a region without holes, to lent output: 21, then 20.
pub fn alone_into(ps: &[f64], out: &mut [f64]) -> RegionWritten
    ensures answered { result ≡ Told.region_made (Told.alone ps.now) out.old }
    ensures written { out.new ≡ Told.region_over (Told.alone ps.now) out.old }
{
    let o = store::stored_outline(ps, told::vertices(ps.len()), false);
    made_into(region_new::without_holes(o), out)
}

// The inset of a region handed in, to lent output: 21, 13 to 19, then 20.
pub fn stored_inset_into(lengths: &[usize], ps: &[f64], d: f64, out: &mut [f64]) -> InsetWritten
    ensures answered { result ≡ Told.inset_made (Told.stored_region lengths.now ps.now) d out.old }
    ensures written { out.new ≡ Told.inset_over (Told.stored_region lengths.now ps.now) d out.old }
{
    inset_by(true, lengths, ps, d, out)
}

// The rings of a region handed in, and the vertices of each: 21.
pub fn stored(lengths: &[usize], ps: &[f64]) -> RegionWritten
    ensures { result ≡ Told.region_told (Told.handed lengths.now ps.now) }
{
    let made = region_stored::stored(lengths, ps);
    let r = parts_of(&made.shape);
    region_lent::tell_region(r.ps, r.n, r.hs, r.cs, r.h)
}

// Where a point lies in a region handed in: 21, then 2 of the point.
pub fn contains(lengths: &[usize], ps: &[f64], p: PlanarPoint) -> Placed
    ensures { result ≡ Queries.region_contains (Told.handed lengths.now ps.now) p }
{
    let made = region_stored::stored(lengths, ps);
    let r = parts_of(&made.shape);
    region_ask::contains(r.ps, r.n, r.hs, r.cs, r.h, p)
}

// The nearest point of its boundary, and its distance: 21, then 2 of the point.
pub fn nearest(lengths: &[usize], ps: &[f64], p: PlanarPoint) -> Neared
    ensures { result ≡ Boundary.region_nearest (Told.handed lengths.now ps.now) p }
{
    let made = region_stored::stored(lengths, ps);
    let r = parts_of(&made.shape);
    region_ask::nearest(r.ps, r.n, r.hs, r.cs, r.h, p)
}

// Its area: 21.
pub fn area(lengths: &[usize], ps: &[f64]) -> Measured
    ensures { result ≡ Queries.region_area (Told.handed lengths.now ps.now) }
{
    let made = region_stored::stored(lengths, ps);
    let r = parts_of(&made.shape);
    region_ask::area(r.ps, r.n, r.hs, r.cs, r.h)
}

// The length of its boundary: 21.
pub fn perimeter(lengths: &[usize], ps: &[f64]) -> Measured
    ensures { result ≡ Queries.region_perimeter (Told.handed lengths.now ps.now) }
{
    let made = region_stored::stored(lengths, ps);
    let r = parts_of(&made.shape);
    region_ask::perimeter(r.ps, r.n, r.hs, r.cs, r.h)
}

// An outline that was read, to lent output: what its reading refused, then 20. Its parts are taken out first, else it is copied.
#[tactic(auto, unfolding(outline_lent::specs::Direct::open_direct))]
pub(crate) fn read_into(o: NewOutline, out: &mut [f64]) -> Counted
    ensures answered { result ≡ Direct.told o out.old }
    ensures written { out.new ≡ Direct.over_outline o out.old }
{
    let refusal = o.refusal;
    if refusal.granted() {
        let shape = o.shape;
        let refusal = outline_lent::write_outline(&shape.points, shape.count, out);
        Counted {
            refusal,
            count: base::choose(refusal.granted(), shape.count, 0),
        }
    } else {
        Counted { refusal, count: 0 }
    }
}

// The outer ring of a region handed in, to lent output: 21, then 20.
pub fn outer_into(lengths: &[usize], ps: &[f64], out: &mut [f64]) -> Counted
    ensures answered { result ≡ Direct.told (Queries.region_outer (Told.handed lengths.now ps.now)) out.old }
    ensures written { out.new ≡ Direct.over_outline (Queries.region_outer (Told.handed lengths.now ps.now))
        out.old }
{
    let made = region_stored::stored(lengths, ps);
    let refusal = made.refusal;
    let outer = made.shape.outer;
    read_into(
        NewOutline {
            refusal,
            shape: outer,
        },
        out,
    )
}

// Hole k of a region handed in, to lent output: 21, then 20. Where there are no more than k, nothing is written.
pub fn hole_into(lengths: &[usize], ps: &[f64], k: usize, out: &mut [f64]) -> Counted
    ensures answered { result ≡ Told.hole_told (Told.handed lengths.now ps.now) k out.old }
    ensures written { out.new ≡ Told.hole_over (Told.handed lengths.now ps.now) k out.old }
{
    let made = region_stored::stored(lengths, ps);
    if k < made.shape.holes {
        let r = parts_of(&made.shape);
        read_into(region_ask::hole(r.ps, r.n, r.hs, r.cs, r.h, k), out)
    } else {
        Counted {
            refusal: made.refusal,
            count: 0,
        }
    }
}
