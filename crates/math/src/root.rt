// The parts of `hypot`: the rounded root of a sum of two squares, worked out in whole numbers.
ghost use Rattle.std.specs.Prelude.{◌≡◌, not, false, ℕ, ◌+◌, ◌-◌, ◌*◌, ◌/◌, ◌%◌, ◌^◌, ◌≤◌, ◌<◌, T};
ghost use Rattle.std.specs.Float.{nan, binary64};
ghost use Rattle.std.specs.Float.Ieee.{to_bits, of_bits, is_nan, units};
ghost use Rattle.hypotenuse.specs.Hypot.{hypot, round_root};
ghost use Rattle.math.specs.Parts.{RootOf, Halved, WideOf, CutOf, Twice, Fourth, Parts, Larger, units_of};

use crate::bits;
use crate::bits::HIDDEN;

// 2^27, 2^54, and the pattern of infinity.
const BASE: u64 = 0x800_0000;

const WORD: u64 = 0x40_0000_0000_0000;

const INFINITE: u64 = 0x7ff0_0000_0000_0000;

// A whole root and what it leaves: root * root + rest is the number under the root.
#[derive(Clone, Copy)]
struct Root {
    root: u64,
    rest: u64,
}

// The number hi * 2^54 + lo.
#[derive(Clone, Copy)]
struct Wide {
    hi: u64,
    lo: u64,
}

// The number hi * 2^54 + lo, and what a shift dropped below it.
#[derive(Clone, Copy)]
struct Cut {
    hi: u64,
    lo: u64,
    lost: u64,
}

// One binary digit of the root for each pair of binary digits of `word`, the highest first.
#[tactic(auto, using(crate::proofs::RootDigit::root_small, crate::proofs::RootDigit::walk_end))]
fn digits(start: Root, word: u64, pairs: u64) -> Root
    requires root_bound { start.root < 2 ^ 28 }
    requires rest_bound { start.rest ≤ 2 * start.root }
    requires pairs_bound { pairs ≤ 28 }
    requires word_bound { word < 2 ^ (2 * pairs) }
    ensures { RootOf ((start.root * start.root + start.rest) * 2 ^ (2 * pairs) + word) result.root result.rest }
{
    let mut root = start.root;
    let mut rest = start.rest;
    for left in (0..pairs).rev() {
        let next = rest * 4 + (word >> (2 * left)) % 4;
        let step = root * 4 + 1;
        if step <= next {
            rest = next - step;
            root = root * 2 + 1;
        } else {
            rest = next;
            root = root * 2;
        }
    }
    Root { root, rest }
}

// The root of N * base^2 + mid * base + low from that of N, by one division.
fn refine(start: Root, base: u64, mid: u64, low: u64) -> Root
    requires { Halved start.root start.rest base mid low }
    ensures { RootOf ((start.root * start.root + start.rest) * (base * base) + mid * base + low) result.root result.rest }
{
    let twice = start.root * 2;
    let over = start.rest * base + mid;
    let digit = over / twice;
    let root = start.root * base + digit;
    let rest = over % twice * base + low;
    let square = digit * digit;
    if square <= rest {
        Root {
            root,
            rest: rest - square,
        }
    } else {
        Root {
            root: root - 1,
            rest: rest + (root * 2 - 1) - square,
        }
    }
}

// A number near 1 over the root of v, within some hundredths of it: half the exponent, its sign changed.
fn start(v: f64) -> f64 {
    if v != v {
        return v;
    }
    f64::from_bits(0x5fe6_eb50_c7b5_37a9 - ((f64::to_bits(v) >> 1) & 0x3fff_ffff_ffff_ffff))
}

// Newton's step: a number nearer to 1 over the root of 2 * half than y.
fn nearer(half: f64, y: f64) -> f64 {
    y * (1.5 - half * y * y)
}

// The last 28 binary digits of x: of an x from 2^52 up to 2^53, the whole number x - 2^52 where that is below 2^28.
fn last_digits(x: f64) -> u64
    ensures { result < 2 ^ 28 }
{
    if x != x {
        return 0;
    }
    f64::to_bits(x) & 0xfff_ffff
}

// A number near the root of hi, as a rule the whole part of it for a hi from 2^52 up to 2^55.
// Only its size is promised: the caller tries it.
fn guess(hi: u64) -> u64
    requires { hi < 2 ^ 56 }
    ensures { result < 2 ^ 28 }
{
    let v = (hi >> 3) as f64 * 8.0;
    let half = v * 0.5;
    let over = nearer(half, nearer(half, nearer(half, start(v))));
    last_digits(v * over - 0.4994 + 4503599627370496.0)
}

// The root of hi: the guess where it is right, and digit by digit otherwise.
fn half_root(hi: u64) -> Root
    requires { hi < 2 ^ 56 }
    ensures { RootOf hi result.root result.rest }
{
    let root = guess(hi);
    let square = root * root;
    if square <= hi && hi - square <= root * 2 {
        return Root {
            root,
            rest: hi - square,
        };
    }
    let none = Root { root: 0, rest: 0 };
    digits(none, hi, 28)
}

// The root of hi * 2^54 + lo: by one division where its upper half has digits enough.
fn root_of(hi: u64, lo: u64) -> Root
    requires hi_bound { hi < 2 ^ 56 }
    requires lo_bound { lo < 2 ^ 54 }
    ensures { RootOf (hi * 2 ^ 54 + lo) result.root result.rest }
{
    let half = half_root(hi);
    if hi >= HIDDEN {
        return refine(half, BASE, lo >> 27, lo % BASE);
    }
    digits(half, lo, 27)
}

// m * m, for an m below 2^54.
fn square(m: u64) -> Wide
    requires { m < 2 ^ 54 }
    ensures { WideOf (m * m) result.hi result.lo }
{
    let high = m >> 27;
    let low = m % BASE;
    let cross = high * low * 2;
    let lo = low * low + cross % BASE * BASE;
    let hi = high * high + (cross >> 27) + (lo >> 54);
    Wide { hi, lo: lo % WORD }
}

// w / 2^n, for an n up to 54.
fn shrink(w: Wide, n: u64) -> Cut
    requires n_bound { n ≤ 54 }
    requires hi_bound { w.hi < 2 ^ 54 }
    requires lo_bound { w.lo < 2 ^ 54 }
    ensures { CutOf (w.hi * 2 ^ 54 + w.lo) n result.hi result.lo result.lost }
{
    let unit = bits::power(n);
    let over = bits::power(54 - n);
    let hi = w.hi / unit;
    let lo = w.hi % unit * over + w.lo / unit;
    Cut {
        hi,
        lo,
        lost: w.lo % unit,
    }
}

// Twice the root of m * m + n * n / 4^d, with `rest` above 0 where it is not exact.
fn twice_root(m: u64, n: u64, d: u64) -> Root
    requires m_bound { m < 2 ^ 53 }
    requires n_bound { n < 2 ^ 53 }
    requires d_bound { d ≤ 27 }
    ensures { Twice (m * m * 2 ^ (2 * d) + n * n) (2 * d) result.root result.rest }
{
    let a = square(m * 2);
    let b = shrink(square(n * 2), 2 * d);
    let lo = a.lo + b.lo;
    let hi = a.hi + b.hi + (lo >> 54);
    let r = root_of(hi, lo % WORD);
    Root {
        root: r.root,
        rest: r.rest + b.lost,
    }
}

// A fourth of `root`, to the nearest, at a tie the even one; `rest` above 0 says that there is more.
fn fourth(root: u64, rest: u64) -> u64
    ensures { Fourth root rest result }
{
    let q = root / 4;
    let r = root % 4;
    q + base::choose((r > 2) | ((r == 2) & ((rest > 0) | (q % 2 == 1))), 1, 0)
}

// The pattern of q * 2^k units, or of infinity where that is too large.
fn assemble(q: u64, k: u64) -> u64
    requires k_bound { k ≤ 2046 }
    requires parts { Parts q k }
    ensures { (result ≤ 0x7ff0_0000_0000_0000) × (of_bits binary64 result ≡ units binary64 false q k) }
{
    let bits = k * HIDDEN + q;
    if bits < INFINITE { bits } else { INFINITE }
}

// The pattern of half of `root` * 2^x units, rounded once; `rest` above 0 says that there is more.
fn rounded(x: u64, root: u64, rest: u64) -> u64
    requires x_bound { x ≤ 2045 }
    requires root_bound { root < 2 ^ 55 }
    requires bound { 0 < x → 2 ^ 53 ≤ root }
    ensures { (result ≤ 0x7ff0_0000_0000_0000)
        × ((s : ℕ) → Twice s (2 * x) root rest → of_bits binary64 result ≡ round_root binary64 s) }
{
    let short = root < WORD;
    let digits = base::choose(short, root * 2, root);
    let scale = base::choose(short, x, x + 1);
    assemble(fourth(digits, rest), scale)
}

// The pattern of the rounded root of two finite patterns without a sign, b being at most a.
fn of_finite(a: u64, b: u64) -> u64
    requires b_le_a { b ≤ a }
    requires a_bound { a < 0x7ff0_0000_0000_0000 }
    ensures { (result ≤ 0x7ff0_0000_0000_0000)
        × (of_bits binary64 result ≡ round_root binary64 (units_of a * units_of a + units_of b * units_of b)) }
{
    let x = bits::exponent(a);
    let d = x - bits::exponent(b);
    if d > 27 {
        return a;
    }
    let r = twice_root(bits::significand(a), bits::significand(b), d);
    rounded(x, r.root, r.rest)
}

// The pattern of x without its sign.
pub(crate) fn magnitude(x: f64) -> u64
    requires { T (not (is_nan x)) }
    ensures { result ≡ to_bits binary64 x % 2 ^ 63 }
{
    bits::magnitude(f64::to_bits(x))
}

// The rounded root of two patterns without a sign, none of them a NaN's, b being at most a.
pub(crate) fn of_magnitudes(a: u64, b: u64) -> f64
    requires b_le_a { b ≤ a }
    requires a_bound { a ≤ 0x7ff0_0000_0000_0000 }
    ensures { Larger a b result }
{
    if a == INFINITE {
        return f64::from_bits(INFINITE);
    }
    f64::from_bits(of_finite(a, b))
}

// What stands beside a NaN decides: an infinity gives infinity.
pub(crate) fn beside_nan(y: f64) -> f64
    ensures { result ≡ hypot nan y }
{
    if y != y {
        return y;
    }
    if magnitude(y) == INFINITE {
        return f64::from_bits(INFINITE);
    }
    0.0 / 0.0
}
