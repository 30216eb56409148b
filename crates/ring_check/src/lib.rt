// The check of a ring: questions 4 to 9, and at the door, where a ring comes in from outside, 27 between 7 and 8. `room` is how many
// vertices there is room for, `index` the ring's number.
#![tactic(auto)]

ghost use Rattle.std.specs.Prelude.{◌≡◌, cond, MatchBool};
ghost use Rattle.std.specs.Float.Ieee.{lt};
ghost use Rattle.plane.specs.Plane;
ghost use Rattle.plane.specs.Points;
ghost use Rattle.ring_check.specs.Checks;
ghost use Rattle.ring_check.specs.Walks;

use error::Refusal;
use plane::PlanarPoint;
use ring_cross::EdgePair;

// What the ring check answers: how many vertices are kept, and whether they are stored in reverse.
#[derive(Clone, Copy)]
pub struct Checked {
    pub refusal: Refusal,
    pub count: usize,
    pub back: bool,
}

pub const MAX_COORDINATE: f64 = 1e9;

const MIN_RELATIVE_AREA: f64 = 1e-12;

// An edge that is shorter is a hairline.
const HAIRLINE: f64 = 1e-6;

// How many vertices are kept: one closing repeat is dropped.
pub(crate) fn kept(ps: &[f64], n: usize) -> usize
    ensures { result ≡ Checks.kept ps.now n }
{
    let last = base::less(n, 1);
    let closes = plane::same(ring::vertex_at(ps, last), ring::vertex_at(ps, 0));
    base::choose((1 < n) & closes, last, n)
}

// Whether a number is not within the range. A NaN is beyond it.
pub(crate) fn beyond(x: f64) -> bool
    ensures { result ≡ Checks.beyond x }
{
    !((-MAX_COORDINATE <= x) & (x <= MAX_COORDINATE))
}

// Range, east then north, then room.
pub(crate) fn vertex_refusal(
    room: usize,
    index: usize,
    n: usize,
    k: usize,
    v: PlanarPoint,
) -> Refusal
    ensures { result ≡ Checks.vertex_refusal room index n k v }
{
    let fits = base::choose(k < room, Refusal::Granted, Refusal::Room(index, n, room));
    let north = base::choose(beyond(v.north), Refusal::Range(index, v.north), fits);
    base::choose(beyond(v.east), Refusal::Range(index, v.east), north)
}

// Whether nothing is refused of vertex k.
pub(crate) fn passes(room: usize, k: usize, v: PlanarPoint) -> bool
    ensures { result ≡ Walks.passes room k v }
{
    (k < room) & !(beyond(v.east) | beyond(v.north))
}

// The first vertex that does not pass is refused.
pub(crate) fn check_range(room: usize, index: usize, ps: &[f64], n: usize) -> Refusal
    ensures { result ≡ Checks.check_range room index ps.now n }
{
    for k in 0..n {
        let v = ring::vertex_at(ps, k);
        if !passes(room, k, v) {
            return vertex_refusal(room, index, n, k, v);
        }
    }
    Refusal::Granted
}

// Whether an edge, the closing one included, passes the test: none is asked after one that does.
pub(crate) fn any_edge<F: Fn(PlanarPoint, PlanarPoint) -> bool>(
    ps: &[f64],
    n: usize,
    test: F,
) -> bool
    requires { F.IsAlwaysCallable test }
    ensures { MatchBool result (Walks.Passing (F.post test) ps.now n) (Walks.NonePasses (F.post test) ps.now n) }
{
    let mut a = ring::vertex_at(ps, 0);
    for k in 0..n {
        let b = ring::edge_end(ps, n, k);
        if test(a, b) {
            return true;
        }
        a = b;
    }
    false
}

// Whether two neighbours are equal.
pub(crate) fn repeats(ps: &[f64], n: usize) -> bool
    ensures { result ≡ Checks.repeats ps.now n }
{
    any_edge(ps, n, plane::same)
}

// Whether a number reaches the least length, up or down. A NaN does not.
pub(crate) fn reaches(x: f64) -> bool
    ensures { result ≡ Walks.reaches x }
{
    HAIRLINE <= x || x <= -HAIRLINE
}

// Whether the edge from a to b reaches it east or north: then its ends differ, and it is no hairline.
pub(crate) fn wide(a: PlanarPoint, b: PlanarPoint) -> bool
    ensures { result ≡ Walks.wide a b }
{
    reaches(b.east - a.east) || reaches(b.north - a.north)
}

// Whether every edge does.
pub(crate) fn all_wide(ps: &[f64], n: usize) -> bool
    ensures { result ≡ Walks.all_wide ps.now n }
{
    !any_edge(ps, n, |a, b| !wide(a, b))
}

// Whether the edge from a to b is a hairline. A root is taken only where the width does not tell.
pub(crate) fn short(a: PlanarPoint, b: PlanarPoint) -> bool
    ensures { result ≡ lt (Points.length_of (Plane.sub b a)) Checks.hairline_length }
{
    !wide(a, b) && plane::length_of(plane::sub(b, a)) < HAIRLINE
}

// Whether some edge, the closing one included, is a hairline.
pub(crate) fn hairline(ps: &[f64], n: usize) -> bool
    ensures { result ≡ Checks.hairline ps.now n }
{
    any_edge(ps, n, short)
}

// Questions 7 and, at the door, 27. Neither is walked where every edge is wide.
pub(crate) fn edge_refusal(door: bool, index: usize, ps: &[f64], n: usize) -> Refusal
    ensures { result ≡ Walks.edge_refusal door index ps.now n }
{
    if all_wide(ps, n) {
        return Refusal::Granted;
    }
    if repeats(ps, n) {
        return Refusal::Repeated(index);
    }
    if door && hairline(ps, n) {
        return Refusal::Hairline(index);
    }
    Refusal::Granted
}

// Whether the area is nothing beside the square of the span s.
pub(crate) fn flat(signed: f64, s: f64) -> bool
    ensures { result ≡ Checks.flat signed s }
{
    math::abs(signed) <= MIN_RELATIVE_AREA * s * s
}

// Edge k of the reversed ring is edge n - 1 - k of the input.
pub(crate) fn crossed(index: usize, n: usize, back: bool, c: Option<EdgePair>) -> Refusal
    ensures { result ≡ Checks.crossed index n back c }
{
    match c {
        None => Refusal::Granted,
        Some(EdgePair { first, second }) => {
            let last = base::less(n, 1);
            base::choose(
                back,
                Refusal::Crossed(index, base::less(last, second), base::less(last, first)),
                Refusal::Crossed(index, first, second),
            )
        }
    }
}

pub fn refused(r: Refusal) -> Checked
    ensures { result ≡ Checks.refused r }
{
    Checked {
        refusal: r,
        count: 0,
        back: false,
    }
}

pub(crate) fn passed(r: Refusal, n: usize, back: bool) -> Checked
    ensures { result ≡ Checks.passed r n back }
{
    let all = Checked {
        refusal: Refusal::Granted,
        count: n,
        back,
    };
    base::choose(r.granted(), all, refused(r))
}

pub(crate) fn check_reversed(index: usize, ps: &[f64], n: usize, back: bool) -> Checked
    ensures { result ≡ Checks.check_reversed index ps.now n back }
{
    passed(
        crossed(index, n, back, ring_cross::check_simple(ps, n, back)),
        n,
        back,
    )
}

pub(crate) fn check_area(index: usize, ps: &[f64], n: usize, signed: f64) -> Checked
    ensures { result ≡ Checks.check_area index ps.now n signed }
{
    if flat(signed, ring_measure::span(ps, n)) {
        refused(Refusal::Flat(index))
    } else {
        check_reversed(index, ps, n, signed < 0.0)
    }
}

pub(crate) fn check_shape(door: bool, index: usize, ps: &[f64], n: usize) -> Checked
    ensures { result ≡ Checks.check_shape door index ps.now n }
{
    let r = edge_refusal(door, index, ps, n);
    if r.granted() {
        check_area(index, ps, n, ring_measure::signed_area(ps, n))
    } else {
        refused(r)
    }
}

pub(crate) fn check_in_range(door: bool, index: usize, ps: &[f64], n: usize, r: Refusal) -> Checked
    ensures { result ≡ Checks.check_in_range door index ps.now n r }
{
    if r.granted() {
        check_shape(door, index, ps, n)
    } else {
        refused(r)
    }
}

pub(crate) fn check_kept(door: bool, room: usize, index: usize, ps: &[f64], n: usize) -> Checked
    ensures { result ≡ Checks.check_kept door room index ps.now n }
{
    if n < 3 {
        refused(Refusal::Few(index, n))
    } else {
        check_in_range(door, index, ps, n, check_range(room, index, ps, n))
    }
}

pub(crate) fn check_by(door: bool, room: usize, index: usize, ps: &[f64], n: usize) -> Checked
    ensures { result ≡ Checks.check_by door room index ps.now n }
{
    check_kept(door, room, index, ps, kept(ps, n))
}

// Questions 4 to 9 alone: of a piece of an offset, or of a run that is cut from a drawing.
pub fn check_ring(room: usize, index: usize, ps: &[f64], n: usize) -> Checked
    ensures { result ≡ Checks.check_ring room index ps.now n }
{
    check_by(false, room, index, ps, n)
}

// The door: questions 4 to 7, 27, 8 and 9 of a ring that comes in from outside.
pub fn check_door(room: usize, index: usize, ps: &[f64], n: usize) -> Checked
    ensures { result ≡ Checks.check_door room index ps.now n }
{
    check_by(true, room, index, ps, n)
}
