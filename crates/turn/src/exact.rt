// Doubles as three digits of 27 bits at a slot, their products as five wide digits at a slot, and the walk over the slots from the top.
ghost use Rattle.std.specs.Prelude.{◌≡◌, true, false, cond, ◌+◌, ◌-◌, ◌*◌, ◌/◌, ◌%◌, ◌^◌, ◌≤◌, ◌<◌, min, max};
ghost use Rattle.math.specs.Number.{finite};
ghost use Rattle.turn.specs.Turns;
ghost use Rattle.turn.specs.Digits.{LimbsOf, Small, SmallSpot, Narrow, ProductOf, Flat, Over, Under, Empty, Gathered, Told, Placed, units};
ghost use Rattle.turn.specs.Digits.{sum, digit_of, goes, side_digit, side_total};

use crate::Turn;
use math::bits;
use plane::PlanarPoint;

// 2^27.
const BASE: u64 = 0x800_0000;

// 2^63.
const SIGN: u64 = 0x8000_0000_0000_0000;

// 2^32: no digits below a slot come to so many of its units.
const LIMIT: u64 = 0x1_0000_0000;

// (low + mid * 2^27 + high * 2^54) * 2^(27 * slot) units, negative where `back`.
#[derive(Clone, Copy)]
pub struct Limbs {
    back: bool,
    slot: u64,
    low: u64,
    mid: u64,
    high: u64,
}

// A point by the digits of its two numbers.
#[derive(Clone, Copy)]
pub struct Spot {
    east: Limbs,
    north: Limbs,
}

// Five digits from the slot on; they count to the right where `back`.
#[derive(Clone, Copy)]
pub struct Product {
    back: bool,
    slot: u64,
    da: u64,
    db: u64,
    dc: u64,
    dd: u64,
    de: u64,
}

// Stays: no plainer, since the definitions name each of the six.
#[derive(Clone, Copy)]
pub struct Six {
    pa: Product,
    pb: Product,
    pc: Product,
    pd: Product,
    pe: Product,
    pf: Product,
}

// The digits of the number m * 2^e, which `back` says is negative.
#[tactic(auto, using(crate::proofs::Spread::first_fits, crate::proofs::Spread::second_fits, crate::proofs::Spread::sum_fits))]
fn spread(back: bool, m: u64, e: u64) -> Limbs
    requires m_bound { m < 2 ^ 53 }
    requires e_bound { e ≤ 2045 }
    ensures { LimbsOf back (m * 2 ^ e) result }
{
    let unit = bits::power(e % 27);
    let first = m % BASE * unit;
    let second = (m >> 27) * unit + (first >> 27);
    Limbs {
        back,
        slot: e / 27,
        low: first % BASE,
        mid: second % BASE,
        high: second >> 27,
    }
}

// The digits of a finite double.
fn limbs_of(x: f64) -> Limbs
    requires { finite x ≡ true }
    ensures placed { Placed (Turns.place x) result.back (units result) }
    ensures small { Small result }
{
    let pattern = f64::to_bits(x);
    let a = bits::magnitude(pattern);
    spread(pattern >= SIGN, bits::significand(a), bits::exponent(a))
}

// The product of two digits.
#[tactic(auto, using(crate::proofs::Products::small_product))]
fn times(a: u64, b: u64) -> u64
    requires a_bound { a < 2 ^ 27 }
    requires b_bound { b < 2 ^ 27 }
    ensures value { result ≡ a * b }
    ensures upper_bound { result ≤ 2 ^ 54 }
{
    a * b
}

// The product of two numbers, negative where one of them is, and turned round where `turned`.
fn multiply(turned: bool, a: Limbs, b: Limbs) -> Product
    requires small { Small a }
    requires small_2 { Small b }
    ensures { ProductOf turned a b result }
{
    Product {
        back: turned ^ (a.back ^ b.back),
        slot: a.slot + b.slot,
        da: times(a.low, b.low),
        db: times(a.low, b.mid) + times(a.mid, b.low),
        dc: times(a.low, b.high) + times(a.mid, b.mid) + times(a.high, b.low),
        dd: times(a.mid, b.high) + times(a.high, b.mid),
        de: times(a.high, b.high),
    }
}

// The digit of a product at the slot k.
#[tactic(auto, using(crate::proofs::Products::narrow_digit), unfolding(crate::specs::Digits::digit_of))]
fn digit(p: Product, k: u64) -> u64
    requires { Narrow p }
    ensures value { result ≡ digit_of p k }
    ensures upper_bound { result ≤ 3 * 2 ^ 54 }
{
    let upper = base::choose(
        k == p.slot + 3,
        p.dd,
        base::choose(k == p.slot + 4, p.de, 0),
    );
    let middle = base::choose(
        k == p.slot + 1,
        p.db,
        base::choose(k == p.slot + 2, p.dc, upper),
    );
    base::choose(k == p.slot, p.da, middle)
}

// What a product counts at the slot k, to the right where `right`, else to the left.
fn count(right: bool, p: Product, k: u64) -> u64
    requires { Narrow p }
    ensures value { result ≡ goes right p k }
    ensures upper_bound { result ≤ 3 * 2 ^ 54 }
{
    if p.back == right { digit(p, k) } else { 0 }
}

// What the products count at the slot k, to the right where `right`, else to the left.
#[tactic(auto, using(crate::proofs::Products::same_six, crate::proofs::Products::six), unfolding(crate::specs::Digits::side_digit))]
fn tally(right: bool, s: Six, k: u64) -> u64
    requires { Flat s }
    ensures value { result ≡ side_digit right s k }
    ensures upper_bound { result ≤ 18 * 2 ^ 54 }
{
    count(right, s.pa, k)
        + count(right, s.pb, k)
        + count(right, s.pc, k)
        + count(right, s.pd, k)
        + count(right, s.pe, k)
        + count(right, s.pf, k)
}

// A slot below which a product has no digit: its own, or 200 where it is 0. All slots are below 155.
#[tactic(auto, using(crate::proofs::Products::no_digits, crate::proofs::Products::below), unfolding(crate::specs::Digits::digit_of))]
fn floor(p: Product) -> u64
    requires { Narrow p }
    ensures { Under result p }
{
    if p.da + p.db + p.dc + p.dd + p.de == 0 {
        200
    } else {
        p.slot
    }
}

// A slot past all digits.
fn top(s: Six) -> u64
    requires { Flat s }
    ensures { Over result s }
{
    let first = s.pa.slot.max(s.pb.slot).max(s.pc.slot);
    first.max(s.pd.slot).max(s.pe.slot).max(s.pf.slot) + 5
}

// A slot below all digits.
fn bottom(s: Six) -> u64
    requires { Flat s }
    ensures { Empty result s }
{
    let first = floor(s.pa).min(floor(s.pb)).min(floor(s.pc));
    first.min(floor(s.pd)).min(floor(s.pe)).min(floor(s.pf))
}

// Both sums from the top slot down, less what they have in common, until one leads by more than the slots below can make up for.
fn walk(s: Six, from: u64, to: u64) -> Turn
    requires flat { Flat s }
    requires empty { Empty to s }
    ensures { result ≡ Turns.by_sums (sum (side_digit false s) from) (sum (side_digit true s) from) }
{
    let mut left = 0u64;
    let mut right = 0u64;
    for k in (to..from).rev() {
        if left.max(right) >= LIMIT {
            break;
        }
        let l = left * BASE + tally(false, s, k);
        let r = right * BASE + tally(true, s, k);
        let least = l.min(r);
        left = l - least;
        right = r - least;
    }
    crate::compare(left, right)
}

// The six products of the turn from a by b to c.
fn gather(a: Spot, b: Spot, c: Spot) -> Six
    requires small { SmallSpot a }
    requires small_2 { SmallSpot b }
    requires small_3 { SmallSpot c }
    ensures { Gathered a.east a.north b.east b.north c.east c.north result }
{
    Six {
        pa: multiply(false, a.east, b.north),
        pb: multiply(false, b.east, c.north),
        pc: multiply(false, c.east, a.north),
        pd: multiply(true, a.north, b.east),
        pe: multiply(true, b.north, c.east),
        pf: multiply(true, c.north, a.east),
    }
}

// The turn that six products tell.
fn told(s: Six) -> Turn
    requires { Flat s }
    ensures { Told s result }
{
    walk(s, top(s), bottom(s))
}

// The digits of a point's two numbers.
#[tactic(auto, using(crate::proofs::Places::east_finite, crate::proofs::Places::north_finite))]
fn spot_of(p: PlanarPoint) -> Spot
    requires { Turns.finite_point p ≡ true }
    ensures east { Placed (Turns.place p.east) result.east.back (units result.east) }
    ensures north { Placed (Turns.place p.north) result.north.back (units result.north) }
    ensures small { SmallSpot result }
{
    Spot {
        east: limbs_of(p.east),
        north: limbs_of(p.north),
    }
}

// The turn of six finite numbers.
pub(crate) fn of_finite(a: PlanarPoint, b: PlanarPoint, c: PlanarPoint) -> Turn
    requires a_value { Turns.finite_point a ≡ true }
    requires b_value { Turns.finite_point b ≡ true }
    requires c_value { Turns.finite_point c ≡ true }
    ensures { result ≡ Turns.by_sums (Turns.left_sum a b c) (Turns.right_sum a b c) }
{
    told(gather(spot_of(a), spot_of(b), spot_of(c)))
}
