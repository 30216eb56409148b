// Offsets of an outline that is handed in.
use crate::answer::Answer;
use crate::kinds;
use crate::question::Question;
use offset::Offset;
use outline::store;

// What a refusal carries is in the first five fields, the completed events in the next three, the shape in the rest.
fn offset_is(answer: Answer, made: &Offset) -> bool {
    answer.carried_is(made.refusal)
        && answer.whole_is(5, made.collapses)
        && answer.whole_is(6, made.divides)
        && answer.whole_is(7, made.joins)
        && kinds::shape_is(answer.from(3), &made.shape)
}

// The outline's room has the first 256 numbers, NaN where there are fewer; the count is the one given.
pub(crate) fn offset(answer: Answer, asked: Question) -> bool {
    let mut shape = store::stored_outline(asked.from(3).numbers, 128, false);
    shape.count = asked.whole(2);
    let distance = asked.number(1);
    match asked.whole(0) {
        0 => offset_is(answer, &offset_run::inset(shape, distance)),
        1 => offset_is(answer, &offset_run::outset(shape, distance)),
        _ => false,
    }
}
