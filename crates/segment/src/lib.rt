// Segments of the plane: whether two of them meet or fold back, a test of their boxes that they do not meet, and the nearest point of one.
#![tactic(auto)]

ghost use Rattle.std.specs.Prelude.{◌≡◌};
ghost use Rattle.turn.specs.Turns;
ghost use Rattle.turn.specs.Turns.{DoublePoint};
ghost use Rattle.segment.specs.Segments;
ghost use Rattle.segment.specs.Meeting;
ghost use Rattle.segment.specs.Boxes;

use plane::PlanarPoint;
use turn::Turn;

// Whether p, on the segment's line, lies within its bounding box.
#[tactic(auto, unfolding(crate::specs::Segments::within_box))]
pub(crate) fn within_box(a: PlanarPoint, b: PlanarPoint, p: PlanarPoint) -> bool
    ensures { result ≡ Segments.within_box a b p }
{
    let west = math::min(a.east, b.east);
    let east = math::max(a.east, b.east);
    let south = math::min(a.north, b.north);
    let north = math::max(a.north, b.north);
    (west <= p.east) & ((p.east <= east) & ((south <= p.north) & (p.north <= north)))
}

// Whether p, whose turn from the segment is d, lies on it.
#[tactic(auto, unfolding(crate::specs::Segments::touches))]
pub(crate) fn touches(d: Turn, a: PlanarPoint, b: PlanarPoint, p: PlanarPoint) -> bool
    ensures { result ≡ Segments.touches d a b p }
{
    turn::is_straight(d) & within_box(a, b, p)
}

// Whether p lies on the segment ab. Few points are in its box, which is asked first.
#[tactic(auto, unfolding(crate::specs::Segments::touches))]
pub fn on_segment(a: PlanarPoint, b: PlanarPoint, p: PlanarPoint) -> bool
    ensures { result ≡ Segments.touches (Turns.turn a b p) a b p }
{
    within_box(a, b, p) && turn::is_straight(turn::of_points(a, b, p))
}

// The last step of `segments_meet`, from the four turns: the segments cross, or an end of one lies on the other.
#[tactic(auto, unfolding(crate::specs::Segments::meet_by))]
pub(crate) fn meet_by(
    d1: Turn,
    d2: Turn,
    d3: Turn,
    d4: Turn,
    p1: PlanarPoint,
    p2: PlanarPoint,
    q1: PlanarPoint,
    q2: PlanarPoint,
) -> bool
    ensures { result ≡ Segments.meet_by d1 d2 d3 d4 p1 p2 q1 q2 }
{
    (turn::apart(d1, d2) & turn::apart(d3, d4))
        || touches(d1, q1, q2, p1)
        || touches(d2, q1, q2, p2)
        || touches(d3, p1, p2, q1)
        || touches(d4, p1, p2, q2)
}

// Both turns are to the left, or both to the right.
#[tactic(auto, unfolding(crate::specs::Meeting::one_side))]
pub(crate) fn one_side(d: Turn, e: Turn) -> bool
    ensures { result ≡ Meeting.one_side d e }
{
    (turn::is_left(d) & turn::is_left(e)) | (turn::is_right(d) & turn::is_right(e))
}

// Whether two closed segments have a point in common. Where one lies on one side of the other's line they have none.
#[tactic(auto, using(crate::proofs::Across::early), unfolding(crate::specs::Segments::segments_meet))]
pub fn segments_meet(p1: PlanarPoint, p2: PlanarPoint, q1: PlanarPoint, q2: PlanarPoint) -> bool
    ensures { result ≡ Segments.segments_meet p1 p2 q1 q2 }
{
    let d1 = turn::of_points(q1, q2, p1);
    let d2 = turn::of_points(q1, q2, p2);
    if one_side(d1, d2) {
        return false;
    }
    let d3 = turn::of_points(p1, p2, q1);
    let d4 = turn::of_points(p1, p2, q2);
    if one_side(d3, d4) {
        return false;
    }
    meet_by(d1, d2, d3, d4, p1, p2, q1, q2)
}

// Whether two edges that share an end overlap.
#[tactic(auto, unfolding(crate::specs::Segments::folds_back))]
pub fn folds_back(shared: PlanarPoint, a: PlanarPoint, b: PlanarPoint) -> bool
    ensures { result ≡ Segments.folds_back shared a b }
{
    0.0 < plane::dot(plane::sub(a, shared), plane::sub(b, shared))
        && turn::is_straight(turn::of_points(shared, a, b))
}

// The point from a, along ab, at the fraction t.
#[tactic(auto, unfolding(crate::specs::Segments::along))]
pub fn along(a: PlanarPoint, ab: PlanarPoint, t: f64) -> PlanarPoint
    ensures { result ≡ Segments.along a ab t }
{
    PlanarPoint {
        east: a.east + t * ab.east,
        north: a.north + t * ab.north,
    }
}

// The point of the segment ab nearest to p.
#[tactic(auto, unfolding(crate::specs::Segments::closest_on_segment, crate::specs::Segments::foot))]
pub fn closest_on_segment(p: PlanarPoint, a: PlanarPoint, b: PlanarPoint) -> PlanarPoint
    ensures { result ≡ Segments.closest_on_segment p a b }
{
    let ab = plane::sub(b, a);
    let squared = plane::dot(ab, ab);
    let t = math::clamp(plane::dot(plane::sub(p, a), ab) / squared);
    base::choose(squared <= 0.0, a, along(a, ab, t))
}

// ---- boxes

// The less and the greater of two numbers; the second where one is NaN.
// Stays: no plainer, since `math::min` and `math::max` pass a NaN over.
#[tactic(auto, unfolding(crate::specs::Boxes::lesser))]
fn lesser(x: f64, y: f64) -> f64
    ensures { result ≡ Boxes.lesser x y }
{
    base::choose(x < y, x, y)
}

#[tactic(auto, unfolding(crate::specs::Boxes::greater))]
fn greater(x: f64, y: f64) -> f64
    ensures { result ≡ Boxes.greater x y }
{
    base::choose(y < x, x, y)
}

// The corners of the box of the segment from a to b.
#[tactic(auto, unfolding(crate::specs::Boxes::low))]
pub fn low(a: PlanarPoint, b: PlanarPoint) -> PlanarPoint
    ensures value { result ≡ Boxes.low a b }
    ensures double_point { DoublePoint a }
    ensures double_point_2 { DoublePoint b }
{
    PlanarPoint {
        east: lesser(a.east, b.east),
        north: lesser(a.north, b.north),
    }
}

#[tactic(auto, unfolding(crate::specs::Boxes::high))]
pub fn high(a: PlanarPoint, b: PlanarPoint) -> PlanarPoint
    ensures { result ≡ Boxes.high a b }
{
    PlanarPoint {
        east: greater(a.east, b.east),
        north: greater(a.north, b.north),
    }
}

// Whether the segment from p to q lies beside the box from l to h.
#[tactic(auto, unfolding(crate::specs::Boxes::beside))]
pub(crate) fn beside(l: PlanarPoint, h: PlanarPoint, p: PlanarPoint, q: PlanarPoint) -> bool
    ensures { result ≡ Boxes.beside l h p q }
{
    greater(p.east, q.east) < l.east
        || h.east < lesser(p.east, q.east)
        || greater(p.north, q.north) < l.north
        || h.north < lesser(p.north, q.north)
}

// Whether the segment from p to q is passed over: it lies beside the box from l to h, so no segment in the box meets it.
#[tactic(auto, using(crate::proofs::Apart::passed_over))]
pub fn passed_over(l: PlanarPoint, h: PlanarPoint, p: PlanarPoint, q: PlanarPoint) -> bool
    ensures value { result ≡ Boxes.beside l h p q }
    ensures passed_over { Boxes.PassedOver result l h p q }
{
    beside(l, h, p, q)
}

// Whether the box from l2 to h2 lies beside the one from l to h.
#[tactic(auto, unfolding(crate::specs::Boxes::boxes_apart))]
pub fn boxes_apart(l: PlanarPoint, h: PlanarPoint, l2: PlanarPoint, h2: PlanarPoint) -> bool
    ensures { result ≡ Boxes.boxes_apart l h l2 h2 }
{
    (h2.east < l.east) | ((h.east < l2.east) | ((h2.north < l.north) | (h.north < l2.north)))
}
