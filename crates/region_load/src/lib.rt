// The rings of a region from numbers: question 3, and 4 to 9 and 27 ring by ring.
#![tactic(auto)]

ghost use Rattle.std.specs.Prelude.{◌≡◌, true};
ghost use Rattle.region.specs.Checks;
ghost use Rattle.region_load.specs.Loads;

use error::Refusal;
use outline::Outline;
use region::{Region, RegionLoad};

// Question 3: there is a ring, and the ring lengths add up to the points. The sum is left once it passes them.
pub fn lengths_fit(lengths: &[usize], ps: &[f64]) -> bool
    ensures { result ≡ Checks.lengths_fit lengths.now ps.now }
{
    let most = ps.len() / 2;
    let mut sum = 0;
    for n in lengths {
        if most - sum < *n {
            return false;
        }
        sum += *n;
    }
    (0 < lengths.len()) & (2 * sum == ps.len())
}

// The rings loaded so far: the outer one and k holes. The next ring starts at vertex `start`.
pub(crate) fn loaded(
    refusal: Refusal,
    outer: Outline,
    points: [f64; 512],
    counts: [usize; 8],
    k: usize,
    start: usize,
) -> RegionLoad
    ensures { result ≡ Loads.loaded refusal outer points counts k start }
{
    RegionLoad {
        refusal,
        shape: Region {
            outer,
            points,
            counts,
            holes: k,
        },
        start,
    }
}

// Questions 4 to 9 and 27 of each hole, one ring after the other, beside an outer ring that has passed them. The first refusal ends it: the
// shape beside it is empty.
pub(crate) fn load_holes(lengths: &[usize], ps: &[f64], outer: Outline) -> RegionLoad
    requires { Checks.lengths_fit lengths.now ps.now ≡ true }
    ensures { result ≡ Loads.load_holes lengths.now ps.now outer }
{
    let mut points = [0.0; 512];
    let mut counts = [0; 8];
    let mut start = region_given::count_at(lengths, 0);
    let last = base::less(lengths.len(), 1);
    for k in 0..last {
        let place = k + 1;
        let n = region_given::count_at(lengths, place);
        let part = &ps[2 * start..];
        let c = ring_check::check_door(32, place, part, n);
        if !c.refusal.granted() {
            let none = outline::store::no_outline();
            return loaded(c.refusal, none, [0.0; 512], [0; 8], 0, start);
        }
        region_given::put_hole(part, c.count, c.back, k, &mut points, &mut counts);
        start += n;
    }
    loaded(Refusal::Granted, outer, points, counts, last, start)
}

// No rings.
pub(crate) fn no_load(r: Refusal, start: usize) -> RegionLoad
    ensures { result ≡ Loads.no_load r start }
{
    RegionLoad {
        refusal: r,
        shape: region_given::no_region(),
        start,
    }
}

// Questions 4 to 9 and 27 of the outer ring, then of the holes.
pub(crate) fn load_fitting(lengths: &[usize], ps: &[f64]) -> RegionLoad
    requires { Checks.lengths_fit lengths.now ps.now ≡ true }
    ensures { result ≡ Checks.load_rings lengths.now ps.now }
{
    let n = region_given::count_at(lengths, 0);
    let o = outline::store::new_outline(ps, n);
    if o.refusal.granted() {
        load_holes(lengths, ps, o.shape)
    } else {
        no_load(o.refusal, n)
    }
}

// The rings of a region: question 3, then 4 to 9 and 27 ring by ring, outer first.
pub fn load_rings(lengths: &[usize], ps: &[f64]) -> RegionLoad
    ensures { result ≡ Loads.load_fitting lengths.now ps.now }
{
    if lengths_fit(lengths, ps) {
        load_fitting(lengths, ps)
    } else {
        no_load(Refusal::Lengths, 0)
    }
}
