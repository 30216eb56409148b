// The inset of a region: the sweep of all its rings, the pieces of the front, and what these come to.
#![tactic(auto)]

ghost use Rattle.std.specs.Prelude.{◌≡◌, true, suc};
ghost use Rattle.offset.specs.Answers.{AnswerDemand};
ghost use Rattle.region.specs.Regions.{region_of};
ghost use Rattle.region.specs.Checks.{proper_region};
ghost use Rattle.region.specs.Demand.{edges_of};
ghost use Rattle.region.specs.Insets;
ghost use Rattle.region_inset.specs.Found;
ghost use Rattle.region_inset.specs.Refused;

use error::Refusal;
use front::Sweep;
use region::{Region, RegionOffset};

// What the pieces come to, q being the region that they make: 16 without an outer ring, its own questions, and the last checks against the
// source.
pub(crate) fn found_refusal(
    ps: &[f64],
    n: usize,
    hs: &[f64],
    cs: &[usize],
    h: usize,
    d: f64,
    tolerance: f64,
    u: Refusal,
    found: bool,
    qs: &[f64],
    m: usize,
    gs: &[f64],
    ds: &[usize],
    g: usize,
) -> Refusal
    ensures { result ≡
        Found.found_refusal (region_of ps.now n hs.now cs.now h) d tolerance u found
        (region_of qs.now m gs.now ds.now g) }
{
    if !u.granted() {
        return u;
    }
    if !found {
        return Refusal::Collapses(d);
    }
    let checked = region_check::check_region(qs, m, gs, ds, g);
    if !checked.granted() {
        return checked.region_failure(d);
    }
    let clear = region_clear::stays_clear(d - tolerance, ps, n, hs, cs, h, qs, m, gs, ds, g);
    base::choose(clear, Refusal::Granted, Refusal::Splits(d))
}

// An answer beside which the shape is empty, with the events that were completed before.
pub(crate) fn inset_refused(
    u: Refusal,
    collapses: usize,
    divides: usize,
    joins: usize,
) -> RegionOffset
    ensures { result ≡ Refused.inset_refused u collapses divides joins }
{
    RegionOffset {
        refusal: u,
        shape: region_given::no_region(),
        collapses,
        divides,
        joins,
    }
}

// What the front that has come to the distance gives, and the events that the sweep completed.
pub(crate) fn inset_from(
    ps: &[f64],
    n: usize,
    hs: &[f64],
    cs: &[usize],
    h: usize,
    d: f64,
    s: Sweep,
) -> RegionOffset
    ensures { result ≡ Insets.inset_from (region_of ps.now n hs.now cs.now h) d s }
{
    if !s.refusal.granted() {
        return inset_refused(s.refusal, s.collapses, s.divides, s.joins);
    }
    let extent = region_measure::region_extent(ps, n, hs, cs, h);
    let tolerance = offset_run::offset_tolerance(d, extent);
    let origin = ring::vertex_at(ps, 0);
    let p = region_pieces::region_pieces(s.edges, origin, d, tolerance);
    let q = p.shape;
    let o = q.outer;
    let u = found_refusal(
        ps, n, hs, cs, h, d, tolerance, p.refusal, p.found, &o.points, o.count, &q.points,
        &q.counts, q.holes,
    );
    if !u.granted() {
        return inset_refused(u, s.collapses, s.divides, s.joins);
    }
    RegionOffset {
        refusal: Refusal::Granted,
        shape: q,
        collapses: s.collapses,
        divides: s.divides,
        joins: s.joins,
    }
}

// An answer without a sweep.
pub(crate) fn region_plain(u: Refusal, r: Region) -> RegionOffset
    ensures { result ≡ Insets.region_plain u r }
{
    RegionOffset {
        refusal: u,
        shape: r,
        collapses: 0,
        divides: 0,
        joins: 0,
    }
}

// The region shrunk by a distance, with its completed events: 21, then 13 and 14. An inset by 0 or −0 gives the source itself. Demand 3's
// bounds hold of what is handed back.
pub fn inset(r: Region, d: f64) -> RegionOffset
    ensures is { result ≡ Insets.region_inset r d }
    ensures bounded { proper_region r ≡ true
        → AnswerDemand (edges_of r r.holes) (suc r.holes) result.refusal result.collapses result.divides result.joins }
{
    let o = r.outer;
    let u = region_given::ask_region(
        &o.points,
        o.count,
        &r.points,
        &r.counts,
        r.holes,
        offset_run::check_distance(d),
    );
    if !u.granted() {
        return inset_refused(u, 0, 0, 0);
    }
    if d == 0.0 {
        return region_plain(Refusal::Granted, r);
    }
    let s = region_front::region_sweep(&o.points, o.count, &r.points, &r.counts, r.holes, d);
    inset_from(&o.points, o.count, &r.points, &r.counts, r.holes, d, s)
}
