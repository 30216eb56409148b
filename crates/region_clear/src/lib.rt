// The last checks of a region's inset: its rings against the rings of the source. A region is handed in as the numbers and the count of its
// outer ring, the flat numbers of its holes, their counts, and how many holes there are.
#![tactic(auto)]

ghost use Rattle.std.specs.Prelude.{◌≡◌, ◌&&◌, not};
ghost use Rattle.region.specs.Regions.{region_of};
ghost use Rattle.region.specs.Insets;
ghost use Rattle.region_clear.specs.Apart;

// Whether the ring qs stays clear of each ring of a region: inside the outer one, and outside the holes.
pub(crate) fn ring_apart(
    least: f64,
    ps: &[f64],
    n: usize,
    hs: &[f64],
    cs: &[usize],
    h: usize,
    qs: &[f64],
    m: usize,
) -> bool
    ensures { result ≡ Apart.ring_apart least (region_of ps.now n hs.now cs.now h) qs.now m }
{
    if !offset_clear::ring_stays_clear(false, least, ps, n, qs, m) {
        return false;
    }
    (0..h).all(|k| {
        let hole = region_given::hole_points(hs, k);
        offset_clear::ring_stays_clear(true, least, hole, region_given::count_at(cs, k), qs, m)
    })
}

// Whether the second region keeps clear of the first and crosses it nowhere.
pub fn stays_clear(
    least: f64,
    ps: &[f64],
    n: usize,
    hs: &[f64],
    cs: &[usize],
    h: usize,
    qs: &[f64],
    m: usize,
    gs: &[f64],
    ds: &[usize],
    g: usize,
) -> bool
    ensures { result ≡
        (Insets.region_keeps_clear least (region_of ps.now n hs.now cs.now h)
        (region_of qs.now m gs.now ds.now g) &&
        not
        (Insets.crosses (region_of ps.now n hs.now cs.now h)
        (region_of qs.now m gs.now ds.now g))) }
{
    if !ring_apart(least, ps, n, hs, cs, h, qs, m) {
        return false;
    }
    (0..g).all(|k| {
        let hole = region_given::hole_points(gs, k);
        ring_apart(least, ps, n, hs, cs, h, hole, region_given::count_at(ds, k))
    })
}
