// Outlines: from numbers to an outline, and question 21 of one handed in. A ring is a list of numbers, two a vertex, east then north. An
// outline has room for 128 vertices.
#![tactic(auto)]

ghost use Rattle.std.specs.Prelude.{◌≡◌};
ghost use Rattle.outline.specs.Outlines;

pub mod entry;
pub mod store;

use error::Refusal;

// An outline: its first `count` vertices, counter-clockwise; the rest is 0.
#[repr(C)]
#[derive(Clone, Copy)]
pub struct Outline {
    pub points: [f64; 256],
    pub count: usize,
}

// What a check of an outline or a region answers: the shape stands beside the refusal, and is empty unless granted.
#[derive(Clone, Copy)]
pub struct NewOutline {
    pub refusal: Refusal,
    pub shape: Outline,
}

impl Outline {
    // The outline of these numbers: questions 1, 2, 4 to 7, 27, 8 and 9.
    pub fn new(ps: &[f64]) -> NewOutline
        ensures { result ≡ Outlines.outline ps.now }
    {
        if ps.len() % 2 == 0 {
            entry::outline_if(ps, entry::check_finite(ps))
        } else {
            store::refused(Refusal::Odd)
        }
    }
}
