// The fields of a double's 64 bits: sign, exponent, digits. And `power`, of whole numbers.
ghost use Rattle.std.specs.Prelude.{◌≡◌, cond, ◌%◌, ◌^◌};
ghost use Rattle.math.specs.Parts.{exponent_of, significand_of};

// 2^52.
pub(crate) const HIDDEN: u64 = 0x10_0000_0000_0000;

// 2^n where n is below 64.
pub fn power(n: u64) -> u64
    ensures { result ≡ 2 ^ (n % 64) }
{
    1u64 << (n % 64)
}

// The pattern without its sign.
pub fn magnitude(pattern: u64) -> u64
    ensures { result ≡ pattern % 2 ^ 63 }
{
    pattern & 0x7fff_ffff_ffff_ffff
}

// The exponent of a pattern without a sign, counted from the smallest.
pub fn exponent(a: u64) -> u64
    ensures { result ≡ exponent_of a }
{
    (a >> 52).saturating_sub(1)
}

// The digits below the leading one.
fn fraction(a: u64) -> u64
    ensures { result ≡ a % 2 ^ 52 }
{
    a & 0xf_ffff_ffff_ffff
}

// The digits of a pattern without a sign, the leading one with them.
pub fn significand(a: u64) -> u64
    ensures { result ≡ significand_of a }
{
    let digits = fraction(a);
    if a >> 52 == 0 {
        digits
    } else {
        digits + HIDDEN
    }
}
