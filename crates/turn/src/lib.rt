// The exact turn of three points: the sign of a sum of six products, worked out in whole numbers from the bits.
#![tactic(auto)]

ghost use Rattle.std.specs.Prelude.{◌≡◌, T};
ghost use Rattle.std.specs.Float.{binary64};
ghost use Rattle.std.specs.Float.Ieee.{fits};
ghost use Rattle.turn.specs.Turns;
ghost use Rattle.turn.specs.Turns.{DoublePoint};
ghost use Rattle.turn.specs.Filters;

use plane::PlanarPoint;
use std::cmp::Ordering;

mod exact;

// On which side of the line from a to b the point c lies. Unknown: one of the numbers is not finite.
#[derive(Clone, Copy, PartialEq, Eq)]
pub enum Turn {
    Left,
    Right,
    Straight,
    Unknown,
}

#[tactic(auto, unfolding(crate::specs::Turns::by_sums))]
pub(crate) fn compare(left: u64, right: u64) -> Turn
    ensures { result ≡ Turns.by_sums left right }
{
    match left.cmp(&right) {
        Ordering::Greater => Turn::Left,
        Ordering::Less => Turn::Right,
        Ordering::Equal => Turn::Straight,
    }
}

// x is below 2^400 in size. Stays: no plainer, since it has only its form in common with `math::finite`, and a bound of its own.
#[tactic(auto, unfolding(crate::specs::Filters::inside))]
fn inside(x: f64) -> bool
    ensures value { result ≡ Filters.inside x }
    ensures t { T (fits binary64 x) }
{
    let top = 2.5822498780869086e120;
    (x < top) & (-top < x)
}

#[tactic(auto, unfolding(crate::specs::Filters::inside_point))]
fn inside_point(p: PlanarPoint) -> bool
    ensures value { result ≡ Filters.inside_point p }
    ensures double_point { DoublePoint p }
{
    inside(p.east) & inside(p.north)
}

#[tactic(auto, unfolding(crate::specs::Filters::inside_points))]
fn inside_points(a: PlanarPoint, b: PlanarPoint, c: PlanarPoint) -> bool
    ensures value { result ≡ Filters.inside_points a b c }
    ensures double_point { DoublePoint a }
    ensures double_point_2 { DoublePoint b }
    ensures double_point_3 { DoublePoint c }
{
    inside_point(a) & (inside_point(b) & inside_point(c))
}

// The two products whose difference is the cross product.
// Stays: Filters.right_product fixes it: the second is the first of a, c and b, but for the order of its factors.
fn left_product(a: PlanarPoint, b: PlanarPoint, c: PlanarPoint) -> f64
    ensures { result ≡ Filters.left_product a b c }
{
    (b.east - a.east) * (c.north - a.north)
}

fn right_product(a: PlanarPoint, b: PlanarPoint, c: PlanarPoint) -> f64
    ensures { result ≡ Filters.right_product a b c }
{
    (b.north - a.north) * (c.east - a.east)
}

// w is above 0 and larger than v by more than rounding can do: by a part of 2^-30, and above 2^-1000.
#[tactic(auto, unfolding(crate::specs::Filters::leads))]
fn leads(v: f64, w: f64) -> bool
    ensures { result ≡ Filters.leads v w }
{
    (1.0000000009313226 * v < w) & (9.332636185032189e-302 < w)
}

// v is less than w by more than rounding can do.
#[tactic(auto, unfolding(crate::specs::Filters::surely_less))]
fn surely_less(v: f64, w: f64) -> bool
    ensures { result ≡ Filters.surely_less v w }
{
    leads(v, w) | leads(-w, -v)
}

// Both products are 0, since numbers are equal.
#[tactic(auto, unfolding(crate::specs::Filters::flat))]
fn flat(a: PlanarPoint, b: PlanarPoint, c: PlanarPoint) -> bool
    ensures { result ≡ Filters.flat a b c }
{
    ((b.east == a.east) | (c.north == a.north)) & ((b.north == a.north) | (c.east == a.east))
}

// The turn by rounded products of numbers that are not too large, where they tell it.
#[tactic(auto, using(crate::proofs::Told::says_left, crate::proofs::Told::says_right, crate::proofs::Told::says_straight))]
fn by_products(a: PlanarPoint, b: PlanarPoint, c: PlanarPoint) -> Option<Turn>
    requires { Filters.Ready a b c }
    ensures { Filters.Settled result (Turns.turn a b c) }
{
    let left = left_product(a, b, c);
    let right = right_product(a, b, c);
    if surely_less(right, left) {
        return Some(Turn::Left);
    }
    if surely_less(left, right) {
        return Some(Turn::Right);
    }
    if flat(a, b, c) {
        return Some(Turn::Straight);
    }
    None
}

// The filter: the turn where rounded products tell it.
fn quick(a: PlanarPoint, b: PlanarPoint, c: PlanarPoint) -> Option<Turn>
    ensures { Filters.Settled result (Turns.turn a b c) }
{
    if inside_points(a, b, c) {
        return by_products(a, b, c);
    }
    None
}

#[tactic(auto, unfolding(crate::specs::Turns::finite_point))]
fn finite_point(p: PlanarPoint) -> bool
    ensures { result ≡ Turns.finite_point p }
{
    math::finite(p.east) & math::finite(p.north)
}

// The turn by whole numbers.
#[tactic(auto, unfolding(crate::specs::Turns::turn, crate::specs::Turns::finite_point))]
fn slow(a: PlanarPoint, b: PlanarPoint, c: PlanarPoint) -> Turn
    ensures { result ≡ Turns.turn a b c }
{
    if finite_point(a) & (finite_point(b) & finite_point(c)) {
        return exact::of_finite(a, b, c);
    }
    Turn::Unknown
}

// The turn from a by b to c, for any numbers.
pub fn of_points(a: PlanarPoint, b: PlanarPoint, c: PlanarPoint) -> Turn
    ensures { result ≡ Turns.turn a b c }
{
    match quick(a, b, c) {
        Some(t) => t,
        None => slow(a, b, c),
    }
}

#[tactic(auto, unfolding(crate::specs::Turns::is_left))]
pub fn is_left(d: Turn) -> bool
    ensures { result ≡ Turns.is_left d }
{
    d == Turn::Left
}

#[tactic(auto, unfolding(crate::specs::Turns::is_right))]
pub fn is_right(d: Turn) -> bool
    ensures { result ≡ Turns.is_right d }
{
    d == Turn::Right
}

#[tactic(auto, unfolding(crate::specs::Turns::is_straight))]
pub fn is_straight(d: Turn) -> bool
    ensures { result ≡ Turns.is_straight d }
{
    d == Turn::Straight
}

// Of two turns one is to the left and the other to the right.
#[tactic(auto, unfolding(crate::specs::Turns::apart))]
pub fn apart(d: Turn, e: Turn) -> bool
    ensures { result ≡ Turns.apart d e }
{
    (is_left(d) & is_right(e)) | (is_right(d) & is_left(e))
}
