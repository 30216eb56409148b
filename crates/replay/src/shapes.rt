// The kinds of questions about a shape that is handed in.
use crate::answer::Answer;
use crate::question::Question;
use plane::{Containment, PlanarPoint};

pub(crate) fn place(c: Containment) -> usize {
    match c {
        Containment::Outside => 0,
        Containment::OnBoundary => 1,
        Containment::Inside => 2,
    }
}

pub(crate) fn contains(answer: Answer, asked: Question) -> bool {
    let shape = asked.from(3).numbers;
    let placed = outline_ask::contains(shape, asked.whole(0), asked.point(1));
    answer.number_is(0, placed.refusal)
        && answer.whole_is(2, place(placed.place))
        && answer.len() == 3
}

// `distance_to_boundary` and `closest_boundary_point` answer the same, each its part.
fn nearest_parts(answer: Answer, shape: &[f64], n: usize, p: PlanarPoint) -> bool {
    let far = outline_ask::distance_to_boundary(shape, n, p);
    let foot = outline_ask::closest_boundary_point(shape, n, p);
    answer.number_is(0, far.refusal)
        && answer.number_is(0, foot.refusal)
        && answer.float_is(2, far.value)
        && answer.point_is(3, foot.point)
}

pub(crate) fn nearest(answer: Answer, asked: Question) -> bool {
    let n = asked.whole(0);
    let shape = asked.from(3).numbers;
    let p = asked.point(1);
    let near = outline_ask::nearest(shape, n, p);
    answer.number_is(0, near.refusal)
        && answer.float_is(2, near.distance)
        && answer.point_is(3, near.point)
        && nearest_parts(answer, shape, n, p)
        && answer.len() == 5
}

pub(crate) fn measures(answer: Answer, asked: Question) -> bool {
    let n = asked.whole(0);
    let shape = asked.from(1).numbers;
    let made = outline_sizes::area(shape, n);
    let perimeter = outline_sizes::perimeter(shape, n);
    let extent = outline_sizes::extent(shape, n);
    answer.refusal_is(made.refusal)
        && answer.refusal_is(perimeter.refusal)
        && answer.refusal_is(extent.refusal)
        && answer.float_is(1, made.area.value)
        && answer.float_is(2, made.area.hectares())
        && answer.float_is(3, perimeter.value)
        && answer.float_is(4, extent.value)
        && answer.len() == 5
}

// Two shapes that are handed in, with their counts of vertices.
#[derive(Clone, Copy)]
struct Two<'a> {
    first: &'a [f64],
    n: usize,
    second: &'a [f64],
    m: usize,
}

// Both counts stand first, then the numbers of the one shape and of the other; where there are too few, all are the first one's.
fn two_of<'a>(asked: Question<'a>) -> Two<'a> {
    let n = asked.whole(0);
    let numbers = asked.from(2).numbers;
    let cut = n.saturating_mul(2).min(numbers.len());
    let (first, second) = numbers.split_at(cut);
    Two {
        first,
        n,
        second,
        m: asked.whole(1),
    }
}

pub(crate) fn clearance(answer: Answer, asked: Question) -> bool {
    let two = two_of(asked);
    let gap = outline_sizes::clearance(two.first, two.n, two.second, two.m);
    answer.refusal_is(gap.refusal) && answer.float_is(1, gap.value) && answer.len() == 2
}

// Whether two shapes meet, the edges of the outer and of the inner walk, whether the second is in the outer walk.
pub(crate) fn pair(answer: Answer, asked: Question) -> bool {
    let two = two_of(asked);
    let met = outline_sizes::meeting(two.first, two.n, two.second, two.m);
    answer.refusal_is(met.refusal)
        && answer.whole_is(1, usize::from(met.meets))
        && answer.whole_is(2, met.outer)
        && answer.whole_is(3, met.inner)
        && answer.whole_is(4, usize::from(met.swapped))
        && answer.len() == 5
}

pub(crate) fn edge(answer: Answer, asked: Question) -> bool {
    let n = asked.whole(0);
    let k = asked.whole(1);
    let shape = asked.from(2).numbers;
    let edge = outline_ask::edge(shape, n, k);
    let vertex = outline_ask::vertex(shape, n, k);
    answer.refusal_is(edge.refusal)
        && answer.refusal_is(vertex.refusal)
        && answer.point_is(1, edge.start)
        && answer.point_is(3, edge.end)
        && answer.point_is(1, vertex.point)
        && answer.len() == 5
}
