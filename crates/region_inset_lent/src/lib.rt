// Lent output of a region's inset.
#![tactic(auto)]

ghost use Rattle.std.specs.Prelude.{◌≡◌};
ghost use Rattle.region.specs.Answers;
ghost use Rattle.region.specs.Queries;
ghost use Rattle.region_inset_lent.specs.Asked;

use region::{InsetWritten, Region, RegionOffset, RegionWritten};

// What was written, and the events of the inset that gave it.
pub(crate) fn inset_told(a: RegionOffset, w: RegionWritten) -> InsetWritten
    ensures { result ≡ Queries.inset_told a w }
{
    let refusal = w.refusal;
    let counts = w.counts;
    InsetWritten {
        refusal: refusal,
        rings: w.rings,
        counts: counts,
        collapses: a.collapses,
        divides: a.divides,
        joins: a.joins,
    }
}

// An inset's answer to lent output: its own refusal first, then 21 of its shape, which an inset's shape passes, and 20 last.
pub(crate) fn write_inset(a: RegionOffset, out: &mut [f64]) -> InsetWritten
    ensures answered { result ≡ Asked.inset_answer a out.old }
    ensures written { out.new ≡ Asked.inset_after a out.old }
    ensures kept { Answers.RingsWrote result.refusal a.shape out.old out.new }
{
    let given = a.refusal;
    if !given.granted() {
        return inset_told(a, region_lent::no_rings(given));
    }
    let shape = a.shape;
    let outer = shape.outer;
    let w = region_lent::write_region(
        &outer.points,
        outer.count,
        &shape.points,
        &shape.counts,
        shape.holes,
        out,
    );
    inset_told(a, w)
}

// The rings of the inset, the outer one first, go over the first numbers of `out`. A refused write changes nothing; the completed events
// are handed back with it.
pub fn inset_into(r: Region, d: f64, out: &mut [f64]) -> InsetWritten
    ensures answered { result ≡ Queries.inset_write r d out.old }
    ensures written { out.new ≡ Queries.written_inset r d out.old }
{
    write_inset(region_inset::inset(r, d), out)
}
