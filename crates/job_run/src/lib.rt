// A job on numbers: with one ring an outline's offset, with more a region's inset.
#![tactic(auto)]

ghost use Rattle.std.specs.Prelude.{◌≡◌};
ghost use Rattle.job.specs.Jobs;
ghost use Rattle.job_run.specs.Fitting;

use error::Refusal;
use offset::Offset;
use outline::{NewOutline, entry, store};
use region::{NewRegion, Region, RegionOffset};

// A refused job: the shape is empty.
pub(crate) fn refused(r: Refusal) -> RegionOffset
    ensures { result ≡ Jobs.job_refused r }
{
    RegionOffset {
        refusal: r,
        shape: region_given::no_region(),
        collapses: 0,
        divides: 0,
        joins: 0,
    }
}

// An outline's offset, as a region without holes.
pub(crate) fn as_region(r: Offset) -> RegionOffset
    ensures { result ≡ Jobs.as_region r }
{
    RegionOffset {
        refusal: r.refusal,
        shape: Region {
            outer: r.shape,
            points: [0.0; 512],
            counts: [0; 8],
            holes: 0,
        },
        collapses: r.collapses,
        divides: r.divides,
        joins: r.joins,
    }
}

// Questions 13 to 19 of an outline that has passed 4 to 9 and 27.
pub(crate) fn job_outline(outward: bool, d: f64, o: NewOutline) -> RegionOffset
    ensures { result ≡ Jobs.job_outline outward d o }
{
    if o.refusal.granted() {
        as_region(offset_run::offset(o.shape, outward, d))
    } else {
        refused(o.refusal)
    }
}

// Questions 13 to 19 of a region that has passed 4 to 12 and 27.
pub(crate) fn job_region(d: f64, r: NewRegion) -> RegionOffset
    ensures { result ≡ Jobs.job_region d r }
{
    if r.refusal.granted() {
        region_inset::inset(r.shape, d)
    } else {
        refused(r.refusal)
    }
}

// Question 3, then the rings: one is an outline, more are a region.
pub(crate) fn job_fitting(outward: bool, d: f64, lengths: &[usize], ps: &[f64]) -> RegionOffset
    ensures { result ≡ Fitting.job_fitting outward d lengths.now ps.now }
{
    if region_load::lengths_fit(lengths, ps) {
        if lengths.len() == 1 {
            return job_outline(
                outward,
                d,
                store::new_outline(ps, region_given::count_at(lengths, 0)),
            );
        }
        return job_region(
            d,
            region_new::region_loaded(region_load::load_rings(lengths, ps)),
        );
    }
    refused(Refusal::Lengths)
}

// r is what question 2 answers.
pub(crate) fn job_finite(
    outward: bool,
    d: f64,
    lengths: &[usize],
    ps: &[f64],
    r: Refusal,
) -> RegionOffset
    ensures { result ≡ Jobs.job_finite outward d lengths.now ps.now r }
{
    if r.granted() {
        job_fitting(outward, d, lengths, ps)
    } else {
        refused(r)
    }
}

// A side, a distance, the ring lengths and the coordinates: 22 of the side, then 1, 2 and 3, then 4 to 19.
pub fn job(outward: bool, d: f64, lengths: &[usize], ps: &[f64]) -> RegionOffset
    ensures { result ≡ Jobs.job outward d lengths.now ps.now }
{
    if outward & (lengths.len() != 1) {
        return refused(Refusal::Job);
    }
    if ps.len() % 2 != 0 {
        return refused(Refusal::Odd);
    }
    job_finite(outward, d, lengths, ps, entry::check_finite(ps))
}
