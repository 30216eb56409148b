// The fields of a question.
use plane::PlanarPoint;

// The same fields twice: as whole numbers, and as floats.
#[derive(Clone, Copy)]
pub(crate) struct Question<'a> {
    pub words: &'a [u64],
    pub numbers: &'a [f64],
}

impl<'a> Question<'a> {
    // The fields from k on; none where there are not so many.
    pub(crate) fn from(self, k: usize) -> Question<'a> {
        Question {
            words: self.words.get(k..).unwrap_or(&[]),
            numbers: self.numbers.get(k..).unwrap_or(&[]),
        }
    }

    // Field k as a whole number; 0 past the end.
    pub(crate) fn whole(self, k: usize) -> usize {
        self.words.get(k).copied().unwrap_or(0) as usize
    }

    // Field k as a float; NaN past the end.
    pub(crate) fn number(self, k: usize) -> f64 {
        ring::number_at(self.numbers, k)
    }

    // The point of the two fields from k on.
    pub(crate) fn point(self, k: usize) -> PlanarPoint {
        let rest = self.from(k);
        PlanarPoint {
            east: rest.number(0),
            north: rest.number(1),
        }
    }
}
