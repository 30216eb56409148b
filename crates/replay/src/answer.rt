// The fields of a stored answer, and comparisons of them with what the library answers.
use error::{Carried, Refusal};
use plane::PlanarPoint;

#[derive(Clone, Copy)]
pub(crate) struct Answer<'a> {
    pub fields: &'a [u64],
}

impl<'a> Answer<'a> {
    // The fields from k on; none where there are not so many.
    pub(crate) fn from(self, k: usize) -> Answer<'a> {
        Answer {
            fields: self.fields.get(k..).unwrap_or(&[]),
        }
    }

    pub(crate) fn len(self) -> usize {
        self.fields.len()
    }

    // Field k is this whole number.
    pub(crate) fn whole_is(self, k: usize, n: usize) -> bool {
        self.fields.get(k).copied() == Some(n as u64)
    }

    // Field k is this float by its bits, a zero's sign aside. No field is a NaN.
    pub(crate) fn float_is(self, k: usize, x: f64) -> bool {
        if x != x {
            return false;
        }
        let bits = if x == 0.0 { 0 } else { x.to_bits() };
        self.fields.get(k).copied() == Some(bits)
    }

    // A point is in the two fields from k on.
    pub(crate) fn point_is(self, k: usize, p: PlanarPoint) -> bool {
        let rest = self.from(k);
        rest.float_is(0, p.east) && rest.float_is(1, p.north)
    }

    // All fields are the first numbers of ps.
    pub(crate) fn floats_are(self, ps: &[f64]) -> bool {
        for k in 0..self.len() {
            if !self.float_is(k, ring::number_at(ps, k)) {
                return false;
            }
        }
        true
    }

    // The first field is the refusal's number.
    pub(crate) fn refusal_is(self, r: Refusal) -> bool {
        self.whole_is(0, r.number())
    }

    // The number of a refusal and its whole number are in the two fields from k on.
    pub(crate) fn number_is(self, k: usize, r: Refusal) -> bool {
        let c = Carried::from(r);
        let rest = self.from(k);
        rest.whole_is(0, c.question) && rest.whole_is(1, c.first)
    }

    // What a refusal carries is in the first five fields.
    pub(crate) fn carried_is(self, r: Refusal) -> bool {
        let c = Carried::from(r);
        self.whole_is(0, c.question)
            && self.whole_is(1, c.ring)
            && self.whole_is(2, c.first)
            && self.whole_is(3, c.second)
            && self.float_is(4, c.value)
    }
}
