// Lent output: an outline, its numbers and how many vertices they are, written to numbers of the caller.
#![tactic(auto)]

ghost use Rattle.std.specs.Prelude.{◌≡◌, cond, ◌*◌, leb};
ghost use Rattle.error.specs.declared.Refusal.TheVariants.{Granted, Short};
ghost use Rattle.outline.specs.Outlines;
ghost use Rattle.base.specs.Loop.{rounds};
ghost use Rattle.outline_lent.specs.Writes;

use error::Refusal;
use outline::entry;

pub mod direct;

// What a write of n vertices to lent output of this length answers: 21, then 20.
pub(crate) fn ask_write(ps: &[f64], n: usize, length: usize) -> Refusal
    ensures { result ≡ Outlines.ask_ring ps.now n (cond (leb (2 * n) length) Granted (Short (2 * n))) }
{
    if n <= 128 {
        let needed = 2 * n;
        let fits = base::choose(needed <= length, Refusal::Granted, Refusal::Short(needed));
        entry::ask_ring(ps, n, fits)
    } else {
        Refusal::Shape
    }
}

// The first numbers of ps, as many as `count`, to the front of `out`. One past its end is left out.
pub fn write_numbers(ps: &[f64], count: usize, out: &mut [f64])
    ensures { out.new ≡ rounds (Writes.write_step ps.now 0) count out.old }
{
    for k in 0..count {
        if k < out.len() {
            out[k] = ring::number_at(ps, k);
        }
    }
}

// An outline to lent output: 21, then 20. A refused write changes nothing.
pub fn write_outline(ps: &[f64], n: usize, out: &mut [f64]) -> Refusal
    ensures answered { result ≡ Writes.ring_write ps.now n out.old }
    ensures written { out.new ≡ Writes.written_ring ps.now n out.old }
{
    let r = ask_write(ps, n, out.len());
    if r.granted() {
        write_numbers(ps, 2 * n, out);
    }
    r
}
