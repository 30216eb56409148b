// Regions: from ring lengths and numbers, from an outline alone, or from outlines that are handed in.
#![tactic(auto)]

ghost use Rattle.std.specs.Prelude.{◌≡◌};
ghost use Rattle.region.specs.Checks;
ghost use Rattle.region.specs.Answers;
ghost use Rattle.region_new.specs.Holes;

use error::Refusal;
use outline::{Outline, entry};
use region::{NewRegion, Region, RegionLoad};

pub(crate) fn region_refused(r: Refusal) -> NewRegion
    ensures { result ≡ Checks.region_refused r }
{
    NewRegion {
        refusal: r,
        shape: region_given::no_region(),
    }
}

// The region, unless it is refused.
pub(crate) fn region_if(r: Region, s: Refusal) -> NewRegion
    ensures { result ≡ Checks.region_if r s }
{
    if s.granted() {
        NewRegion {
            refusal: Refusal::Granted,
            shape: r,
        }
    } else {
        region_refused(s)
    }
}

// Questions 10 to 12 of a region whose rings have passed 4 to 9.
pub(crate) fn checked_region(r: Region) -> NewRegion
    ensures { result ≡ Checks.region_if r (Checks.check_region r) }
{
    let outer = r.outer;
    let s = region_check::check_region(&outer.points, outer.count, &r.points, &r.counts, r.holes);
    region_if(r, s)
}

// Questions 10 to 12 of rings that are loaded.
pub fn region_loaded(s: RegionLoad) -> NewRegion
    ensures { result ≡ Checks.region_loaded s }
{
    if s.refusal.granted() {
        checked_region(s.shape)
    } else {
        region_refused(s.refusal)
    }
}

pub(crate) fn region_finite(lengths: &[usize], ps: &[f64], r: Refusal) -> NewRegion
    ensures { result ≡ Checks.region_finite lengths.now ps.now r }
{
    if r.granted() {
        region_loaded(region_load::load_rings(lengths, ps))
    } else {
        region_refused(r)
    }
}

// The region of these numbers, ring after ring: questions 1 to 12 and 27.
pub fn new(lengths: &[usize], ps: &[f64]) -> NewRegion
    ensures is { result ≡ Checks.region lengths.now ps.now }
    ensures again { Answers.ProperNewRegion result }
{
    if ps.len() % 2 == 0 {
        region_finite(lengths, ps, entry::check_finite(ps))
    } else {
        region_refused(Refusal::Odd)
    }
}

// An outline that is handed in, as a region without holes: question 21.
pub fn without_holes(o: Outline) -> NewRegion
    ensures is { result ≡ Checks.without_holes o }
    ensures again { Answers.ProperNewRegion result }
{
    if entry::proper(128, &o.points, o.count) {
        NewRegion {
            refusal: Refusal::Granted,
            shape: Region {
                outer: o,
                points: [0.0; 512],
                counts: [0; 8],
                holes: 0,
            },
        }
    } else {
        region_refused(Refusal::Shape)
    }
}

// The rings as they are handed in. A hole past the eighth is counted and not stored.
pub(crate) fn given_rings(outer: Outline, hs: &[f64], cs: &[usize]) -> Region
    ensures { result ≡ Checks.given_rings outer (Holes.outlines hs.now cs.now) }
{
    let mut points = [0.0; 512];
    let mut counts = [0; 8];
    for (k, n) in cs.iter().enumerate() {
        let hole = region_given::hole_points(hs, k);
        region_given::put_hole(hole, *n, false, k, &mut points, &mut counts);
    }
    Region {
        outer,
        points,
        counts,
        holes: cs.len(),
    }
}

// The region of these outlines: 21 of each, then 10 to 12.
pub fn region_given(outer: Outline, hs: &[f64], cs: &[usize]) -> NewRegion
    ensures is { result ≡ Checks.region_given outer (Holes.outlines hs.now cs.now) }
    ensures again { Answers.ProperNewRegion result }
{
    let sound = entry::proper(128, &outer.points, outer.count);
    if sound & region_given::proper_holes(hs, cs, cs.len()) {
        checked_region(given_rings(outer, hs, cs))
    } else {
        region_refused(Refusal::Shape)
    }
}
