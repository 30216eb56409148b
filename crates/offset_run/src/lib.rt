// The inset and the outset of an outline.
#![tactic(auto)]

ghost use Rattle.std.specs.Prelude.{◌≡◌, true, ◌≤◌};
ghost use Rattle.outline.specs.Outlines;
ghost use Rattle.offset.specs.Answers;
ghost use Rattle.offset.specs.Lent;
ghost use Rattle.offset.specs.Offsets;
ghost use Rattle.offset_run.specs.Found;

use error::Refusal;
use offset::{Offset, OffsetWritten};
use outline::{Outline, entry, store};

const MAX_DISTANCE: f64 = 1e12;

const OFFSET_TOLERANCE: f64 = 1e-9;

// Questions 13 and 14.
pub fn check_distance(d: f64) -> Refusal
    ensures { result ≡ Offsets.check_distance d }
{
    let sign = base::choose(d < 0.0, Refusal::Negative(d), Refusal::Granted);
    base::choose(math::finite(d) & (d <= MAX_DISTANCE), sign, Refusal::Far)
}

// The slack of the check that every offset vertex keeps the full distance.
pub fn offset_tolerance(d: f64, extent: f64) -> f64
    ensures { result ≡ Outlines.offset_tolerance d extent }
{
    OFFSET_TOLERANCE * (1.0 + d + extent)
}

// What the pieces come to, q being the piece that is left: 16 where none is, and the last checks against the source.
pub(crate) fn found_refusal(
    ps: &[f64],
    n: usize,
    outward: bool,
    d: f64,
    tolerance: f64,
    u: Refusal,
    found: bool,
    qs: &[f64],
    m: usize,
) -> Refusal
    ensures { result ≡
        Found.found_refusal (Found.outline_of ps.now n) outward d tolerance u found
        (Found.outline_of qs.now m) }
{
    if !u.granted() {
        return u;
    }
    if !found {
        return Refusal::Collapses(d);
    }
    let clear = offset_clear::stays_clear(ps, n, qs, m, outward, d - tolerance);
    base::choose(clear, Refusal::Granted, Refusal::Splits(d))
}

// An answer beside which the shape is empty, with the events that were completed before.
pub(crate) fn offset_refused(u: Refusal, collapses: usize, divides: usize, joins: usize) -> Offset
    ensures { result ≡ Found.offset_refused u collapses divides joins }
{
    Offset {
        refusal: u,
        shape: store::no_outline(),
        collapses,
        divides,
        joins,
    }
}

// The outline's front comes to the distance: what it gives, and the events that the sweep completed.
pub(crate) fn offset_moved(ps: &[f64], n: usize, outward: bool, d: f64) -> Offset
    ensures { result ≡ Found.offset_moved (Found.outline_of ps.now n) outward d }
{
    let origin = ring::vertex_at(ps, 0);
    let loaded = front_load::load_outer(ps, n, outward, origin, d);
    let s = front_sweep::advance(d, loaded);
    if !s.refusal.granted() {
        return offset_refused(s.refusal, s.collapses, s.divides, s.joins);
    }
    let tolerance = offset_tolerance(d, ring_measure::extent(ps, n));
    let p = offset_pieces::pieces(s.edges, origin, outward, d, tolerance);
    let u = found_refusal(
        ps,
        n,
        outward,
        d,
        tolerance,
        p.refusal,
        p.found,
        &p.shape.points,
        p.shape.count,
    );
    if !u.granted() {
        return offset_refused(u, s.collapses, s.divides, s.joins);
    }
    Offset {
        refusal: Refusal::Granted,
        shape: p.shape,
        collapses: s.collapses,
        divides: s.divides,
        joins: s.joins,
    }
}

// An answer without a sweep.
pub(crate) fn offset_plain(r: Refusal, o: Outline) -> Offset
    ensures { result ≡ Offsets.offset_plain r o }
{
    Offset {
        refusal: r,
        shape: o,
        collapses: 0,
        divides: 0,
        joins: 0,
    }
}

// 21, then 13 and 14. An offset by 0 or −0 gives the source itself.
pub fn offset(o: Outline, outward: bool, d: f64) -> Offset
    ensures { result ≡ Offsets.offset o outward d }
{
    let r = entry::ask_ring(&o.points, o.count, check_distance(d));
    if !r.granted() {
        return offset_refused(r, 0, 0, 0);
    }
    if d == 0.0 {
        return offset_plain(Refusal::Granted, o);
    }
    offset_moved(&o.points, o.count, outward, d)
}

// The outline shrunk by a distance, with its completed events: demand 3's bounds hold of what is handed back.
pub fn inset(o: Outline, d: f64) -> Offset
    ensures is { result ≡ Offsets.inset o d }
    ensures bounded { Outlines.proper 128 o.points o.count ≡ true → Answers.AnswerDemand o.count 1 result.refusal result.collapses
        result.divides result.joins }
{
    offset(o, false, d)
}

// The outline grown by a distance, likewise.
pub fn outset(o: Outline, d: f64) -> Offset
    ensures is { result ≡ Offsets.outset o d }
    ensures bounded { Outlines.proper 128 o.points o.count ≡ true → Answers.AnswerDemand o.count 1 result.refusal result.collapses
        result.divides result.joins }
{
    offset(o, true, d)
}

// An answer's numbers to lent output: 20 is asked last.
pub(crate) fn write_offset(
    given: Refusal,
    ps: &[f64],
    n: usize,
    collapses: usize,
    divides: usize,
    joins: usize,
    out: &mut [f64],
) -> OffsetWritten
    requires { n ≤ 128 }
    ensures answered { result ≡
        Lent.offset_told (Found.answer_of given ps.now n collapses divides joins)
        (Lent.write_offset (Found.answer_of given ps.now n collapses divides joins) out.old) }
    ensures written { out.new ≡ Lent.offset_over (Found.answer_of given ps.now n collapses divides joins) out.old }
{
    let needed = 2 * n;
    let asked = base::choose(
        needed <= out.len(),
        Refusal::Granted,
        Refusal::Short(needed),
    );
    let r = base::choose(given.granted(), asked, given);
    let granted = r.granted();
    outline_lent::write_numbers(ps, base::choose(granted, needed, 0), out);
    OffsetWritten {
        refusal: r,
        count: base::choose(granted, n, 0),
        collapses,
        divides,
        joins,
    }
}

// The offset of an outline, its numbers written to lent output. A refused write changes nothing.
pub fn offset_into(o: Outline, outward: bool, d: f64, out: &mut [f64]) -> OffsetWritten
    ensures answered { result ≡ Lent.offset_write o outward d out.old }
    ensures written { out.new ≡ Lent.written_offset o outward d out.old }
{
    let a = offset(o, outward, d);
    write_offset(
        a.refusal,
        &a.shape.points,
        a.shape.count,
        a.collapses,
        a.divides,
        a.joins,
        out,
    )
}
