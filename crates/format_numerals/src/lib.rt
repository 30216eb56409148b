// The numbers of a job line: 16 hexadecimal digits as a float, 1 to 3 decimal digits as a count.
#![tactic(auto)]

ghost use Rattle.std.specs.Prelude.{◌≡◌, ◌≤◌, false, Bool, List, [], ℕ, length, MatchOption};
ghost use Rattle.std.specs.Float.{binary64};
ghost use Rattle.std.specs.Float.Ieee.{of_bits};
ghost use Rattle.format.specs.Numerals;
ghost use Rattle.format.specs.Numerals.{hex_value, decimal_value, is_float, bits_of, float_of, is_count, count_of};
ghost use Rattle.format_numerals.specs.Readings;
ghost use Rattle.format_numerals.specs.Readings.{Run, FieldValue};

// What a field of a job line can be read as: a count or a float.
pub trait Number: Copy {
    ghost formed: { List ℕ → Bool };

    ghost value_of: { List ℕ → Self };

    // None of a field that is not well formed.
    fn read(field: &[u8]) -> Option<Self>
        ensures { MatchOption result (formed field.now ≡ false) (FieldValue formed value_of field.now) };

    ghost empty: { formed [] ≡ false };
}

impl Number for f64 {
    ghost formed = { is_float };

    ghost value_of = { float_of };

    fn read(field: &[u8]) -> Option<f64> {
        float_field(field)
    }

    ghost empty = { Readings.no_float };
}

impl Number for usize {
    ghost formed = { is_count };

    ghost value_of = { count_of };

    fn read(field: &[u8]) -> Option<usize> {
        count_field(field)
    }

    ghost empty = { Readings.no_count };
}

pub(crate) fn is_hex(b: u8) -> bool
    ensures { result ≡ Numerals.is_hex b }
{
    ((b'0' <= b) & (b <= b'9')) | ((b'a' <= b) & (b <= b'f'))
}

pub(crate) fn is_decimal(b: u8) -> bool
    ensures { result ≡ Numerals.is_decimal b }
{
    (b'0' <= b) & (b <= b'9')
}

// The value of a hexadecimal digit, without a branch on its kind: the last four bits, and 9 more for a letter. Of any other byte some
// number below 16.
pub(crate) fn hex_part(b: u8) -> usize
    ensures { result ≡ Readings.hex_part b }
{
    let n = b as usize;
    (n % 16 + n / 64 * 9) % 16
}

// The value of a decimal digit.
pub(crate) fn decimal_part(b: u8) -> usize
    ensures { result ≡ Readings.decimal_part b }
{
    b as usize % 16
}

// Stays: no plainer, since one function for both bases would take the base, the test and the value of a digit, and laws of the two.
pub(crate) fn hex_run(field: &[u8]) -> Option<usize>
    requires { length field.now ≡ 16 }
    ensures { Run 16 Numerals.is_hex hex_value field.now 16 result }
{
    let mut sound = true;
    let mut value = 0usize;
    for k in 0..16 {
        sound = sound & is_hex(field[k]);
        value = value * 16 + hex_part(field[k]);
    }
    if sound { Some(value) } else { None }
}

pub(crate) fn decimal_run(field: &[u8]) -> Option<usize>
    requires { length field.now ≤ 3 }
    ensures { Run 10 Numerals.is_decimal decimal_value field.now (length field.now) result }
{
    let mut sound = true;
    let mut value = 0usize;
    for b in field {
        sound = sound & is_decimal(*b);
        value = value * 10 + decimal_part(*b);
    }
    if sound { Some(value) } else { None }
}

// The float of a pattern; each pattern of a NaN is the one NaN.
pub fn float_of(bits: u64) -> f64
    ensures { result ≡ of_bits binary64 bits }
{
    if 0x7ff0_0000_0000_0000 < bits % 0x8000_0000_0000_0000 {
        return math::nan();
    }
    f64::from_bits(bits)
}

// The pattern that 16 digits are.
pub fn hex_field(field: &[u8]) -> Option<u64>
    ensures { MatchOption result (is_float field.now ≡ false) (FieldValue is_float bits_of field.now) }
{
    if field.len() != 16 {
        return None;
    }
    let bits = hex_run(field)?;
    Some(bits as u64)
}

pub(crate) fn float_field(field: &[u8]) -> Option<f64>
    ensures { MatchOption result (is_float field.now ≡ false) (FieldValue is_float float_of field.now) }
{
    let bits = hex_field(field)?;
    Some(float_of(bits))
}

pub(crate) fn count_field(field: &[u8]) -> Option<usize>
    ensures { MatchOption result (is_count field.now ≡ false) (FieldValue is_count count_of field.now) }
{
    let n = field.len();
    if n == 0 {
        return None;
    }
    if 3 < n {
        return None;
    }
    if (n != 1) & (field[0] == b'0') {
        return None;
    }
    decimal_run(field)
}
