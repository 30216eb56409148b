// The turn of three points, whether two segments meet, whether two edges fold back.
use crate::answer::Answer;
use crate::question::Question;
use turn::Turn;

fn number_of(t: Turn) -> usize {
    match t {
        Turn::Straight => 0,
        Turn::Left => 1,
        Turn::Right => 2,
        Turn::Unknown => 3,
    }
}

// The answer is one field, and this number; the question has so many numbers.
fn only_is(answer: Answer, n: usize, asked: Question, needed: usize) -> bool {
    answer.whole_is(0, n) && answer.len() == 1 && asked.numbers.len() == needed
}

pub(crate) fn turned(answer: Answer, asked: Question) -> bool {
    let turn = turn::of_points(asked.point(0), asked.point(2), asked.point(4));
    only_is(answer, number_of(turn), asked, 6)
}

pub(crate) fn meeting(answer: Answer, asked: Question) -> bool {
    let meet = segment::segments_meet(
        asked.point(0),
        asked.point(2),
        asked.point(4),
        asked.point(6),
    );
    only_is(answer, usize::from(meet), asked, 8)
}

pub(crate) fn folded(answer: Answer, asked: Question) -> bool {
    let folds = segment::folds_back(asked.point(0), asked.point(2), asked.point(4));
    only_is(answer, usize::from(folds), asked, 6)
}
