// Lent output of a region: its rings, the outer one first, written to numbers of the caller, two a vertex.
#![tactic(auto)]

ghost use Rattle.std.specs.Prelude.{◌≡◌, ◌+◌, ◌≤◌};
ghost use Rattle.base.specs.Loop.{rounds};
ghost use Rattle.outline_lent.specs.Writes;
ghost use Rattle.region.specs.Answers;
ghost use Rattle.region.specs.Queries;
ghost use Rattle.region.specs.Regions;
ghost use Rattle.region_lent.specs.Rings;

use error::Refusal;
use region::RegionWritten;

// How many vertices ring k has: ring 0 is the outer one, ring k + 1 is hole k.
pub(crate) fn ring_count(n: usize, cs: &[usize], k: usize) -> usize
    ensures { result ≡ Rings.count_of n cs.now k }
{
    if k == 0 {
        n
    } else {
        region_given::count_at(cs, k - 1)
    }
}

// The numbers of ring k.
pub(crate) fn ring_points<'a>(ps: &'a [f64], hs: &'a [f64], k: usize) -> &'a [f64]
    ensures { result.now ≡ Rings.points_of ps.now hs.now k }
{
    if k == 0 {
        ps
    } else {
        region_given::hole_points(hs, k - 1)
    }
}

// The first numbers of ps, as many as `count`, to `out` from place `base` on. One past its end is left out.
pub(crate) fn write_from(ps: &[f64], count: usize, base: usize, out: &mut [f64])
    ensures { out.new ≡ rounds (Writes.write_step ps.now base) count out.old }
{
    let room = base::less(out.len(), base);
    for k in 0..count {
        if k < room {
            out[base + k] = ring::number_at(ps, k);
        }
    }
}

// The vertices of all rings.
pub(crate) fn vertices(n: usize, cs: &[usize], h: usize) -> usize
    requires { Rings.Few n cs.now h }
    ensures { result ≡ Rings.before_of n cs.now (h + 1) }
{
    let mut s = 0usize;
    for k in 0..h + 1 {
        s += ring_count(n, cs, k);
    }
    s
}

// The vertices of each ring, for nine rings.
pub(crate) fn ring_counts(n: usize, cs: &[usize], h: usize) -> [usize; 9]
    requires { h ≤ 8 }
    ensures { result ≡ Rings.counts_of n cs.now h }
{
    let mut counts = [0; 9];
    for k in 0..h + 1 {
        counts[k] = ring_count(n, cs, k);
    }
    counts
}

// Each ring after the one before.
pub(crate) fn write_rings(ps: &[f64], n: usize, hs: &[f64], cs: &[usize], h: usize, out: &mut [f64])
    requires { Rings.Few n cs.now h }
    ensures { out.new ≡ Queries.write_rings (Regions.region_of ps.now n hs.now cs.now h)
        out.old }
{
    let mut base = 0usize;
    for k in 0..h + 1 {
        let count = 2 * ring_count(n, cs, k);
        let ring = ring_points(ps, hs, k);
        write_from(ring, count, base, out);
        base += count;
    }
}

// Beside a refusal: no rings.
pub fn no_rings(r: Refusal) -> RegionWritten
    ensures { result ≡ Queries.no_rings r }
{
    RegionWritten {
        refusal: r,
        rings: 0,
        counts: [0; 9],
    }
}

// What a write of a region tells, where there is nothing to write to: 21.
pub fn tell_region(ps: &[f64], n: usize, hs: &[f64], cs: &[usize], h: usize) -> RegionWritten
    ensures { result ≡ Rings.region_told (Regions.region_of ps.now n hs.now cs.now h) }
{
    if !region_given::proper_region(ps, n, hs, cs, h) {
        return no_rings(Refusal::Shape);
    }
    RegionWritten {
        refusal: Refusal::Granted,
        rings: h + 1,
        counts: ring_counts(n, cs, h),
    }
}

// A region to lent output: 21, then 20. A refused write changes nothing, and a granted one only the numbers that it writes.
pub fn write_region(
    ps: &[f64],
    n: usize,
    hs: &[f64],
    cs: &[usize],
    h: usize,
    out: &mut [f64],
) -> RegionWritten
    ensures answered { result ≡ Queries.region_write (Regions.region_of ps.now n hs.now cs.now h) out.old }
    ensures written { out.new ≡ Queries.written_region (Regions.region_of ps.now n hs.now cs.now h)
        out.old }
    ensures kept { Answers.RingsWrote result.refusal (Regions.region_of ps.now n hs.now cs.now h) out.old
        out.new }
{
    if !region_given::proper_region(ps, n, hs, cs, h) {
        return no_rings(Refusal::Shape);
    }
    let needed = 2 * vertices(n, cs, h);
    if out.len() < needed {
        return no_rings(Refusal::Short(needed));
    }
    write_rings(ps, n, hs, cs, h, out);
    RegionWritten {
        refusal: Refusal::Granted,
        rings: h + 1,
        counts: ring_counts(n, cs, h),
    }
}
