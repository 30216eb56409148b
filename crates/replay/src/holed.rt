// Regions: from numbers, their insets, and what is asked of one that is handed in.
use crate::answer::Answer;
use crate::question::Question;
use crate::shapes;
use plane::PlanarPoint;
use region::{InsetWritten, NewRegion, Region};

// The fields as lengths, 0 past the last.
fn lengths_of(words: &[u64]) -> [usize; 256] {
    let mut lengths = [0; 256];
    for (length, word) in lengths.iter_mut().zip(words) {
        *length = *word as usize;
    }
    lengths
}

// The region of a count of rings, their lengths and their numbers: from outside, or handed in as it is.
fn made(asked: Question, handed: bool) -> NewRegion {
    let rings = asked.whole(0);
    let all = lengths_of(asked.from(1).words);
    let lengths = all.get(..rings).unwrap_or(&[]);
    let numbers = asked.from(rings.saturating_add(1)).numbers;
    if handed {
        region_stored::stored(lengths, numbers)
    } else {
        region_new::new(lengths, numbers)
    }
}

// Rings and the count of each are in the first ten fields, 0 where there is no region, and the numbers in the rest.
fn rings_are(answer: Answer, rings: usize, counts: &[usize], ps: &[f64]) -> bool {
    let mut same = answer.whole_is(0, rings);
    let mut end = 10usize;
    for (k, n) in counts.iter().enumerate() {
        same = same && answer.whole_is(k + 1, *n);
        end = end.saturating_add(n.saturating_mul(2));
    }
    same && answer.len() == end && answer.from(10).floats_are(ps)
}

fn shape_is(answer: Answer, r: &Region) -> bool {
    let mut out = [0.0; 768];
    let w = region_lent::write_region(
        &r.outer.points,
        r.outer.count,
        &r.points,
        &r.counts,
        r.holes,
        &mut out,
    );
    rings_are(answer, w.rings, &w.counts, &out)
}

// What a refusal carries is in the first five fields, the region in the rest.
pub(crate) fn region(answer: Answer, asked: Question) -> bool {
    let made = made(asked, false);
    answer.carried_is(made.refusal) && shape_is(answer.from(5), &made.shape)
}

// The completed events are in the three fields before the region.
fn inset_is(answer: Answer, w: &InsetWritten, ps: &[f64]) -> bool {
    answer.whole_is(5, w.collapses)
        && answer.whole_is(6, w.divides)
        && answer.whole_is(7, w.joins)
        && rings_are(answer.from(8), w.rings, &w.counts, ps)
}

// Before the region stands the distance. A region that is refused has no inset.
pub(crate) fn inset(answer: Answer, asked: Question, handed: bool) -> bool {
    let made = made(asked.from(1), handed);
    let mut out = [0.0; 768];
    let w = region_inset_lent::inset_into(made.shape, asked.number(0), &mut out);
    let refusal = if made.refusal.granted() {
        w.refusal
    } else {
        made.refusal
    };
    answer.carried_is(refusal) && inset_is(answer, &w, &out)
}

// One field of a region put in place of another; see the list of fields in oracle/src/regions.rs.
fn changed(r: Region, field: usize, value: usize, x: f64) -> Region {
    let mut now = r;
    match field {
        1 => now.outer.count = value,
        2 => now.holes = value,
        3..=10 => now.counts[field - 3] = value,
        16..=271 => now.outer.points[field - 16] = x,
        512..=1023 => now.points[field - 512] = x,
        _ => {}
    }
    now
}

// Where a point lies, how far it is from the boundary, and the nearest point there.
fn place_is(answer: Answer, r: &Region, p: PlanarPoint) -> bool {
    let ring = &r.outer.points;
    let n = r.outer.count;
    let placed = region_ask::contains(ring, n, &r.points, &r.counts, r.holes, p);
    let far = region_ask::distance_to_boundary(ring, n, &r.points, &r.counts, r.holes, p);
    let foot = region_ask::closest_boundary_point(ring, n, &r.points, &r.counts, r.holes, p);
    answer.number_is(0, placed.refusal)
        && answer.number_is(0, far.refusal)
        && answer.number_is(0, foot.refusal)
        && answer.whole_is(2, shapes::place(placed.place))
        && answer.float_is(3, far.value)
        && answer.point_is(4, foot.point)
}

fn measures_are(answer: Answer, r: &Region) -> bool {
    let ring = &r.outer.points;
    let n = r.outer.count;
    let area = region_ask::area(ring, n, &r.points, &r.counts, r.holes);
    let perimeter = region_ask::perimeter(ring, n, &r.points, &r.counts, r.holes);
    answer.refusal_is(area.refusal)
        && answer.refusal_is(perimeter.refusal)
        && answer.float_is(1, area.value)
        && answer.float_is(2, perimeter.value)
}

// Before the region stand the field that is changed, what stands there instead, and the point.
pub(crate) fn within(answer: Answer, asked: Question) -> bool {
    let made = made(asked.from(4), false);
    let now = changed(made.shape, asked.whole(0), asked.whole(1), asked.number(1));
    made.refusal.granted()
        && place_is(answer, &now, asked.point(2))
        && measures_are(answer.from(6), &now)
        && answer.len() == 9
}
