// What comes in from outside: questions 1 and 2 of numbers, and 21 of a shape.
ghost use Rattle.std.specs.Prelude.{◌≡◌};
ghost use Rattle.std.specs.Float.Ieee.{le};
ghost use Rattle.math.specs.Number.{abs};
ghost use Rattle.ring_check.specs.Checks.{max_coordinate};
ghost use Rattle.outline.specs.Outlines;

use super::{NewOutline, store};
use error::Refusal;

// Question 2: the first number that is not finite.
pub fn check_finite(ps: &[f64]) -> Refusal
    ensures { result ≡ Outlines.check_finite ps.now }
{
    for (k, x) in ps.iter().enumerate() {
        if !math::finite(*x) {
            return Refusal::NotFinite(k);
        }
    }
    Refusal::Granted
}

pub(crate) fn outline_if(ps: &[f64], r: Refusal) -> NewOutline
    ensures { result ≡ Outlines.outline_if ps.now r }
{
    if r.granted() {
        store::new_outline(ps, ps.len() / 2)
    } else {
        store::refused(r)
    }
}

// Whether a number is at most the largest coordinate, without its sign.
pub(crate) fn in_reach(x: f64) -> bool
    ensures { result ≡ le (abs x) max_coordinate }
{
    (-ring_check::MAX_COORDINATE <= x) & (x <= ring_check::MAX_COORDINATE)
}

// A number past the end is not in range.
pub(crate) fn in_range(ps: &[f64], n: usize) -> bool
    ensures { result ≡ Outlines.in_range ps.now n }
{
    if ps.len() / 2 < n {
        return false;
    }
    let mut s = true;
    for k in 0..2 * n {
        s = s & in_reach(ps[k]);
    }
    s
}

// Question 21 of a ring.
pub fn proper(room: usize, ps: &[f64], n: usize) -> bool
    ensures { result ≡ Outlines.proper room ps.now n }
{
    n <= room && (3 <= n) & in_range(ps, n)
}

// 21 is asked first of an outline that is handed in.
pub fn ask_ring(ps: &[f64], n: usize, r: Refusal) -> Refusal
    ensures { result ≡ Outlines.ask_ring ps.now n r }
{
    base::choose(proper(128, ps, n), r, Refusal::Shape)
}
