// Numbers as bytes of an answer line: a float as 16 hexadecimal digits, a count as 1 to 3 decimal digits, each after its comma, stored to
// lent bytes.
#![tactic(auto)]

ghost use Rattle.std.specs.Prelude.{◌≡◌, ◌∷◌, ◌+◌, ◌%◌, length};
ghost use Rattle.format.specs.Numerals;
ghost use Rattle.format.specs.Fields.{comma};
ghost use Rattle.format_digits.specs.Stores.{put};

// The byte of a hexadecimal digit, the last of n.
pub(crate) fn hex_digit(n: u64) -> u8
    ensures { result ≡ Numerals.hex_digit (n % 16) }
{
    let d = (n % 16) as u8;
    if d < 10 { d + b'0' } else { d - 10 + b'a' }
}

// The byte of a decimal digit, the last of n.
pub(crate) fn decimal_digit(n: usize) -> u8
    ensures { result ≡ Numerals.decimal_digit (n % 10) }
{
    let d = (n % 10) as u8;
    d + b'0'
}

// The bits that a float prints as: none of a zero, of either sign.
pub(crate) fn printed_bits(x: f64) -> u64
    ensures { result ≡ Numerals.printed_bits x }
{
    if x != x {
        return 0x7ff8_0000_0000_0000;
    }
    if x == 0.0 {
        return 0;
    }
    f64::to_bits(x)
}

// A comma and the 16 digits of a pattern.
pub(crate) fn bits_field(bits: u64) -> [u8; 17]
    ensures { result ≡ comma ∷ Numerals.bits_digits bits }
{
    let mut field = [b','; 17];
    for k in 0..16 {
        field[k + 1] = hex_digit(bits >> (60 - 4 * k));
    }
    field
}

// A comma and the 16 digits of a float.
pub fn float_field(x: f64) -> [u8; 17]
    ensures { result ≡ comma ∷ Numerals.float_digits x }
{
    bits_field(printed_bits(x))
}

// How many bytes a count takes with its comma.
pub fn count_size(n: usize) -> usize
    ensures { result ≡ length (comma ∷ Numerals.count_digits n) }
{
    if n < 10 {
        2
    } else if n < 100 {
        3
    } else {
        4
    }
}

// The bytes, one after the other, to those of `out` from `at` on. One past its end is left out.
pub fn put_bytes(bytes: &[u8], out: &mut [u8], at: usize)
    ensures { out.new ≡ put out.old at bytes.now }
{
    let n = bytes.len().min(base::less(out.len(), at));
    for k in 0..n {
        out[at + k] = bytes[k];
    }
}

// A comma and the digits of a count to the bytes of `out` from `at` on. One past its end is left out.
pub fn put_count(n: usize, out: &mut [u8], at: usize)
    ensures { out.new ≡ put out.old at (comma ∷ Numerals.count_digits n) }
{
    let last = decimal_digit(n);
    let middle = decimal_digit(n / 10);
    if n < 10 {
        put_bytes(&[b',', last], out, at);
    } else if n < 100 {
        put_bytes(&[b',', middle, last], out, at);
    } else {
        put_bytes(&[b',', decimal_digit(n / 100), middle, last], out, at);
    }
}
