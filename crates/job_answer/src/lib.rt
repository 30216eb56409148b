// The answer line of a job, to lent bytes: `no` and the number, or `ok`, the ring count, the vertex counts and the coordinates.
#![tactic(auto)]

ghost use Rattle.std.specs.Prelude.{◌≡◌, true, [], ◌+◌, ◌*◌, ◌≤◌, length, take};
ghost use Rattle.format_digits.specs.Stores.{put};
ghost use Rattle.format.specs.Lines;
ghost use Rattle.job_answer.specs.Writing;

use error::Refusal;
use region::RegionOffset;

// What a write to lent bytes answers, and how many bytes were written.
#[derive(Clone, Copy)]
pub struct Answered {
    pub refusal: Refusal,
    pub count: usize,
}

// How many bytes the first counts take.
pub(crate) fn counts_size(counts: &[usize], holes: usize) -> usize
    requires { holes ≤ 8 }
    ensures size { result ≡ length (Writing.counts_bytes counts.now holes) }
    ensures most { result ≤ 32 }
{
    let mut size = 0usize;
    for k in 0..holes {
        size += format_digits::count_size(region_given::count_at(counts, k));
    }
    size
}

// How many vertices the first counts are.
pub(crate) fn vertices(counts: &[usize], holes: usize) -> usize
    requires holes_bound { holes ≤ 8 }
    requires holes_value { Writing.holes_fit counts.now holes ≡ true }
    ensures sum { result ≡ Writing.hole_vertices counts.now holes }
    ensures most { result ≤ 256 }
{
    let mut sum = 0usize;
    for k in 0..holes {
        sum += region_given::count_at(counts, k);
    }
    sum
}

// The first counts, each after its comma.
pub(crate) fn put_counts(counts: &[usize], holes: usize, out: &mut [u8], at: usize)
    requires holes_bound { holes ≤ 8 }
    requires at_bound { at ≤ 10 }
    ensures { out.new ≡ put out.old at (Writing.counts_bytes counts.now holes) }
{
    let mut here = at;
    for k in 0..holes {
        let c = region_given::count_at(counts, k);
        format_digits::put_count(c, out, here);
        here += format_digits::count_size(c);
    }
}

// The first n numbers, each after its comma.
pub(crate) fn put_floats(ps: &[f64], n: usize, out: &mut [u8], at: usize)
    requires n_in_bounds { n ≤ length ps.now }
    requires n_bound { at + 17 * n ≤ 65536 }
    ensures { out.new ≡ put out.old at (Lines.with_floats (take n ps.now) []) }
{
    let mut here = at;
    for k in 0..n {
        let field = format_digits::float_field(ps[k]);
        format_digits::put_bytes(&field, out, here);
        here += 17;
    }
}

// The numbers of the first holes, each after its comma.
pub(crate) fn put_holes(points: &[f64], counts: &[usize], holes: usize, out: &mut [u8], at: usize)
    requires holes_bound { holes ≤ 8 }
    requires holes_value { Writing.holes_fit counts.now holes ≡ true }
    requires points_len { length points.now ≡ 512 }
    requires at_bound { at ≤ 5000 }
    ensures { out.new ≡ put out.old at (Writing.holes_bytes points.now counts.now holes) }
{
    let mut here = at;
    for k in 0..holes {
        let c = region_given::count_at(counts, k);
        let ps = &points[64 * k..];
        put_floats(ps, 2 * c, out, here);
        here += 34 * c;
    }
}

// `no` and the number.
pub fn no_line(n: usize, out: &mut [u8]) -> Answered
    ensures answered { result ≡ Writing.bytes_answered (Lines.no_line n) out.old }
    ensures written { out.new ≡ Lines.bytes_written (Lines.no_line n) out.old }
{
    let needed = 2 + format_digits::count_size(n);
    if out.len() < needed {
        return Answered {
            refusal: Refusal::Short(needed),
            count: 0,
        };
    }
    format_digits::put_bytes(b"no", out, 0);
    format_digits::put_count(n, out, 2);
    Answered {
        refusal: Refusal::Granted,
        count: needed,
    }
}

// How many bytes `ok`, the ring count and the vertex counts take.
pub(crate) fn head_size(count: usize, counts: &[usize], holes: usize) -> usize
    requires { holes ≤ 8 }
    ensures size { result ≡ length (Writing.head_bytes count counts.now holes) }
    ensures most { result ≤ 42 }
{
    2 + format_digits::count_size(holes + 1)
        + format_digits::count_size(count)
        + counts_size(counts, holes)
}

// `ok`, the ring count and the vertex counts.
pub(crate) fn put_head(count: usize, counts: &[usize], holes: usize, out: &mut [u8])
    requires { holes ≤ 8 }
    ensures { out.new ≡ put out.old 0 (Writing.head_bytes count counts.now holes) }
{
    format_digits::put_bytes(b"ok", out, 0);
    format_digits::put_count(holes + 1, out, 2);
    let second = 2 + format_digits::count_size(holes + 1);
    format_digits::put_count(count, out, second);
    put_counts(
        counts,
        holes,
        out,
        second + format_digits::count_size(count),
    );
}

// `ok`, the ring count, the vertex counts and the coordinates.
pub(crate) fn ok_line(
    outer: &[f64],
    count: usize,
    points: &[f64],
    counts: &[usize],
    holes: usize,
    out: &mut [u8],
) -> Answered
    requires count_bound { count ≤ 128 }
    requires holes_bound { holes ≤ 8 }
    requires holes_value { Writing.holes_fit counts.now holes ≡ true }
    requires outer_len { length outer.now ≡ 256 }
    requires points_len { length points.now ≡ 512 }
    ensures answered { result ≡ Writing.bytes_answered (Writing.shape_bytes outer.now count points.now counts.now holes)
        out.old }
    ensures written { out.new ≡ Lines.bytes_written
        (Writing.shape_bytes outer.now count points.now counts.now holes) out.old }
{
    let head = head_size(count, counts, holes);
    let inner = head + 34 * count;
    let needed = inner + 34 * vertices(counts, holes);
    if out.len() < needed {
        return Answered {
            refusal: Refusal::Short(needed),
            count: 0,
        };
    }
    put_head(count, counts, holes, out);
    put_floats(outer, 2 * count, out, head);
    put_holes(points, counts, holes, out, inner);
    Answered {
        refusal: Refusal::Granted,
        count: needed,
    }
}

// The answer line of a job, to lent bytes: 21 of its shape, then 20. A refused write changes nothing.
pub fn answer_bytes(a: RegionOffset, out: &mut [u8]) -> Answered
    ensures answered { result ≡ Writing.answered a out.old }
    ensures written { out.new ≡ Writing.answer_written a out.old }
{
    if !a.refusal.granted() {
        return no_line(a.refusal.number(), out);
    }
    let shape = &a.shape;
    let outer = &shape.outer;
    if region_given::proper_region(
        &outer.points,
        outer.count,
        &shape.points,
        &shape.counts,
        shape.holes,
    ) {
        return ok_line(
            &outer.points,
            outer.count,
            &shape.points,
            &shape.counts,
            shape.holes,
            out,
        );
    }
    Answered {
        refusal: Refusal::Shape,
        count: 0,
    }
}
