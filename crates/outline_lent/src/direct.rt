// The check of numbers as an outline, with no outline stored: what it answers, and the ring written straight to lent output.
ghost use Rattle.std.specs.Prelude.{◌≡◌, ◌*◌, ◌≤◌, length};
ghost use Rattle.ring.specs.Store;
ghost use Rattle.outline.specs.Outlines;
ghost use Rattle.outline_lent.specs.Direct;

use error::Refusal;
use outline::entry;
use ring_check::Checked;

// What the check of an outline answers, and how many vertices it has; 0 beside a refusal.
#[derive(Clone, Copy)]
pub struct Counted {
    pub refusal: Refusal,
    pub count: usize,
}

pub(crate) fn check_if(ps: &[f64], r: Refusal) -> Checked
    ensures { result ≡ Direct.check_if ps.now r }
{
    if r.granted() {
        ring_check::check_door(128, 0, ps, ps.len() / 2)
    } else {
        ring_check::refused(r)
    }
}

// Questions 1, 2, 4 to 7, 27, 8 and 9.
pub(crate) fn check_numbers(ps: &[f64]) -> Checked
    ensures { result ≡ Direct.check_numbers ps.now }
{
    if ps.len() % 2 == 0 {
        check_if(ps, entry::check_finite(ps))
    } else {
        ring_check::refused(Refusal::Odd)
    }
}

// What `Outline::new` answers, without the outline.
pub fn check_outline(ps: &[f64]) -> Counted
    ensures { result ≡ Direct.counted (Outlines.outline ps.now) }
{
    let c = check_numbers(ps);
    if c.refusal.granted() {
        Counted {
            refusal: Refusal::Granted,
            count: c.count,
        }
    } else {
        Counted {
            refusal: c.refusal,
            count: 0,
        }
    }
}

// The ring as it is stored, to the front of `out`.
pub(crate) fn write_stored(ps: &[f64], n: usize, back: bool, out: &mut [f64])
    requires { 2 * n ≤ length out.old }
    ensures { out.new ≡ Store.stored ps.now n back 0 out.old }
{
    for k in 0..n {
        let v = ring::stored_at(ps, n, back, k);
        out[2 * k] = v.east;
        out[2 * k + 1] = v.north;
    }
}

// The outline of these numbers, written to `out`: questions 1, 2, 4 to 7, 27, 8 and 9, then 20. A refused write changes nothing.
pub fn write_outline(ps: &[f64], out: &mut [f64]) -> Counted
    ensures answered { result ≡ Direct.told (Outlines.outline ps.now) out.old }
    ensures written { out.new ≡ Direct.over_outline (Outlines.outline ps.now) out.old }
{
    let c = check_numbers(ps);
    let n = c.count;
    if c.refusal.granted() {
        if n <= out.len() / 2 {
            write_stored(ps, n, c.back, out);
            Counted {
                refusal: Refusal::Granted,
                count: n,
            }
        } else {
            Counted {
                refusal: Refusal::Short(2 * n),
                count: 0,
            }
        }
    } else {
        Counted {
            refusal: c.refusal,
            count: 0,
        }
    }
}
