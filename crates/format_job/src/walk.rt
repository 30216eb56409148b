// The numbers of one field after another, read to lent memory. One past its end is left out, so with no memory they are only looked at.
ghost use Rattle.std.specs.Prelude.{◌≡◌, set};
ghost use Rattle.format.specs.Numerals.{is_float, float_of, is_count, count_of};
ghost use Rattle.format_job.specs.Reads.{WalkedAt, AllAt};

fn put<T: Copy>(out: &mut [T], k: usize, x: T)
    ensures { out.new ≡ set out.old k x }
{
    if k < out.len() {
        out[k] = x;
    }
}

// n counts from a place on, and where the field after them starts. None where a field is no count.
pub(crate) fn read_counts(line: &[u8], start: usize, n: usize, out: &mut [usize]) -> Option<usize>
    ensures { WalkedAt is_count count_of line.now start n out.old out.new result }
{
    let mut at = start;
    for k in 0..n {
        let x = format_fields::number_at(line, at)?;
        put(out, k, x.value);
        at = x.next;
    }
    Some(at)
}

// Every field from a place on, as a float, and how many there are. None where a field is no float.
pub(crate) fn read_floats(line: &[u8], start: usize, out: &mut [f64]) -> Option<usize>
    ensures { AllAt is_float float_of line.now start out.old out.new result }
{
    let mut at = start;
    let mut k = 0usize;
    // Stays: no plainer, since the walk goes from field to field: where the next one starts is read
    while at <= line.len() {
        let x = format_fields::number_at(line, at)?;
        put(out, k, x.value);
        at = x.next;
        k += 1;
    }
    Some(k)
}
