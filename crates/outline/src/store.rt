// A checked ring is stored as an outline: counter-clockwise, its first vertex kept.
ghost use Rattle.std.specs.Prelude.{◌≡◌};
ghost use Rattle.outline.specs.Outlines;

use super::{NewOutline, Outline};
use error::Refusal;
use ring_check::Checked;

pub fn no_outline() -> Outline
    ensures { result ≡ Outlines.no_outline }
{
    Outline {
        points: [0.0; 256],
        count: 0,
    }
}

// A vertex past the room is left out.
pub fn stored_outline(ps: &[f64], n: usize, back: bool) -> Outline
    ensures { result ≡ Outlines.stored_outline ps.now n back }
{
    let mut points = [0.0; 256];
    for k in 0..n {
        let v = ring::stored_at(ps, n, back, k);
        if k < 128 {
            points[2 * k] = v.east;
            points[2 * k + 1] = v.north;
        }
    }
    Outline { points, count: n }
}

pub fn refused(r: Refusal) -> NewOutline
    ensures { result ≡ Outlines.outline_refused r }
{
    NewOutline {
        refusal: r,
        shape: no_outline(),
    }
}

pub(crate) fn outline_of(ps: &[f64], c: Checked) -> NewOutline
    ensures { result ≡ Outlines.outline_of ps.now c }
{
    if c.refusal.granted() {
        NewOutline {
            refusal: Refusal::Granted,
            shape: stored_outline(ps, c.count, c.back),
        }
    } else {
        refused(c.refusal)
    }
}

// Questions 4 to 7, 27, 8 and 9 of n vertices.
pub fn new_outline(ps: &[f64], n: usize) -> NewOutline
    ensures { result ≡ Outlines.new_outline ps.now n }
{
    outline_of(ps, ring_check::check_door(128, 0, ps, n))
}
