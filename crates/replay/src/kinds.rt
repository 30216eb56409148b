// The kinds of questions that stand alone: an outline's numbers, two points, an area.
use crate::answer::Answer;
use crate::question::Question;
use areas::{Area, NewArea};
use outline::Outline;
use plane::PlanarPoint;

// The stored vertices are in the fields from the sixth on.
pub(crate) fn shape_is(answer: Answer, o: &Outline) -> bool {
    let stored = answer.from(6);
    answer.whole_is(5, o.count)
        && stored.len() == o.count.saturating_mul(2)
        && stored.floats_are(&o.points)
}

pub(crate) fn outline(answer: Answer, asked: Question) -> bool {
    let made = Outline::new(asked.numbers);
    answer.carried_is(made.refusal) && shape_is(answer, &made.shape)
}

pub(crate) fn point(answer: Answer, asked: Question) -> bool {
    let a = PlanarPoint::from_metres(asked.number(0), asked.number(1));
    let b = PlanarPoint::from_metres(asked.number(2), asked.number(3));
    let granted = a.refusal.granted() && b.refusal.granted();
    let distance = if granted {
        a.point.distance_to(b.point)
    } else {
        0.0
    };
    answer.number_is(0, a.refusal)
        && answer.number_is(2, b.refusal)
        && answer.float_is(4, distance)
        && answer.len() == 5
        && asked.numbers.len() == 4
}

// Number, float, value and hectares are in the four fields from k on.
fn area_is(answer: Answer, k: usize, made: NewArea) -> bool {
    let c = error::Carried::from(made.refusal);
    let rest = answer.from(k);
    rest.whole_is(0, c.question)
        && rest.float_is(1, c.value)
        && rest.float_is(2, made.area.value)
        && rest.float_is(3, made.area.hectares())
}

pub(crate) fn area(answer: Answer, asked: Question) -> bool {
    let value = asked.number(0);
    area_is(answer, 0, Area::from_square_metres(value))
        && area_is(answer, 4, Area::from_hectares(value))
        && answer.len() == 8
        && asked.numbers.len() == 1
}
