// Float operations that the language has no form for: absolute value, least and greatest, tests, and the correctly rounded `hypot`.
#![tactic(auto)]

ghost use Rattle.std.specs.Prelude.{◌≡◌, cond};
ghost use Rattle.std.specs.Float.{nan};
ghost use Rattle.hypotenuse.specs.Hypot;
ghost use Rattle.math.specs.Number;

pub mod bits;
mod root;

pub fn abs(x: f64) -> f64
    ensures { result ≡ Number.abs x }
{
    if x != x {
        return x;
    }
    f64::from_bits(root::magnitude(x))
}

// The smaller; a NaN is passed over.
// Stays: `Number.fmin` fixes which of 0 and −0 it is: the library's `min` takes the first, this the second.
#[tactic(auto, unfolding(crate::specs::Number::fmin))]
pub fn min(x: f64, y: f64) -> f64
    ensures { result ≡ Number.fmin x y }
{
    base::choose(x < y, x, base::choose(y == y, y, x))
}

// The larger; a NaN is passed over.
#[tactic(auto, unfolding(crate::specs::Number::fmax))]
pub fn max(x: f64, y: f64) -> f64
    ensures { result ≡ Number.fmax x y }
{
    base::choose(y < x, x, base::choose(y == y, y, x))
}

#[tactic(auto, using(crate::proofs::Values::no_nan))]
pub fn infinity() -> f64
    ensures { result ≡ Number.infinity }
{
    f64::from_bits(0x7ff0_0000_0000_0000)
}

#[tactic(auto, using(crate::proofs::Values::zero_by_zero))]
pub fn nan() -> f64
    ensures { result ≡ nan }
{
    0.0 / 0.0
}

#[tactic(auto, using(crate::proofs::Absolute::finite_test))]
pub fn finite(x: f64) -> bool
    ensures { result ≡ Number.finite x }
{
    let top = infinity();
    (x < top) & (-top < x)
}

// x, but 0 below 0 and 1 above 1.
#[tactic(auto, unfolding(crate::specs::Number::clamp, crate::specs::Number::raised, crate::specs::Number::lowered))]
pub fn clamp(x: f64) -> f64
    ensures { result ≡ Number.clamp x }
{
    let raised = base::choose(x < 0.0, 0.0, x);
    base::choose(1.0 < raised, 1.0, raised)
}

// An infinite or NaN distance reads 0.
#[tactic(auto, unfolding(crate::specs::Number::distance))]
pub fn distance(x: f64) -> f64
    ensures { result ≡ Number.distance x }
{
    base::choose(finite(x), x, 0.0)
}

// The double nearest to the root of x² + y², at a tie the even one.
pub fn hypot(x: f64, y: f64) -> f64
    ensures { result ≡ Hypot.hypot x y }
{
    if x != x {
        return root::beside_nan(y);
    }
    if y != y {
        return root::beside_nan(x);
    }
    let a = root::magnitude(x);
    let b = root::magnitude(y);
    root::of_magnitudes(a.max(b), a.min(b))
}
