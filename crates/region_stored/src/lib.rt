// A region handed in as it is written, ring after ring: question 21 of its counts and of each ring, and the rings taken as they are.
#![tactic(auto)]

ghost use Rattle.std.specs.Prelude.{◌≡◌, true};
ghost use Rattle.error.specs.declared.Refusal.TheVariants.{Shape};
ghost use Rattle.region.specs.Answers;
ghost use Rattle.region.specs.Checks;
ghost use Rattle.region_stored.specs.Stored;

use error::Refusal;
use outline::{entry, store};
use region::{NewRegion, Region, RegionLoad};

// Question 21 of each hole: hole k is ring k + 1.
pub(crate) fn proper_holes(lengths: &[usize], ps: &[f64]) -> bool
    requires { Checks.lengths_fit lengths.now ps.now ≡ true }
    ensures { result ≡ Stored.proper_holes lengths.now ps.now }
{
    let mut start = region_given::count_at(lengths, 0);
    let last = base::less(lengths.len(), 1);
    for k in 0..last {
        let n = region_given::count_at(lengths, k + 1);
        let part = &ps[2 * start..];
        if !entry::proper(32, part, n) {
            return false;
        }
        start += n;
    }
    true
}

// Question 21 of the counts and of each ring; whether there are more than 8 holes is not asked.
pub(crate) fn kept(lengths: &[usize], ps: &[f64]) -> bool
    ensures { result ≡ Stored.kept lengths.now ps.now }
{
    if region_load::lengths_fit(lengths, ps) {
        let n = region_given::count_at(lengths, 0);
        entry::proper(128, ps, n) & proper_holes(lengths, ps)
    } else {
        false
    }
}

// The rings as they are. A hole past the eighth is counted and not stored.
pub(crate) fn rings(lengths: &[usize], ps: &[f64]) -> Region
    requires { Checks.lengths_fit lengths.now ps.now ≡ true }
    ensures { result ≡ Stored.rings lengths.now ps.now }
{
    let mut start = region_given::count_at(lengths, 0);
    let outer = store::stored_outline(ps, start, false);
    let last = base::less(lengths.len(), 1);
    let mut points = [0.0; 512];
    let mut counts = [0; 8];
    for k in 0..last {
        let n = region_given::count_at(lengths, k + 1);
        let part = &ps[2 * start..];
        region_given::put_hole(part, n, false, k, &mut points, &mut counts);
        start += n;
    }
    Region {
        outer,
        points,
        counts,
        holes: last,
    }
}

// No region: 21.
pub(crate) fn no_shape() -> NewRegion
    ensures { result ≡ Checks.region_refused Shape }
{
    NewRegion {
        refusal: Refusal::Shape,
        shape: region_given::no_region(),
    }
}

// A region as it was written: 21 alone. Whether its holes lie inside and apart is not asked again.
pub fn stored(lengths: &[usize], ps: &[f64]) -> NewRegion
    ensures is { result ≡ Stored.stored_region lengths.now ps.now }
    ensures again { Answers.ProperNewRegion result }
{
    if kept(lengths, ps) & (lengths.len() <= 9) {
        NewRegion {
            refusal: Refusal::Granted,
            shape: rings(lengths, ps),
        }
    } else {
        no_shape()
    }
}

// The region of given outlines, ring after ring: 21, then 10 to 12.
pub fn given(lengths: &[usize], ps: &[f64]) -> NewRegion
    ensures is { result ≡ Stored.given_region lengths.now ps.now }
    ensures again { Answers.ProperNewRegion result }
{
    if kept(lengths, ps) {
        region_new::region_loaded(RegionLoad {
            refusal: Refusal::Granted,
            shape: rings(lengths, ps),
            start: 0,
        })
    } else {
        no_shape()
    }
}
