// One line of bytes to one line of bytes, and the stream of lines.
#![tactic(auto)]

ghost use Rattle.std.specs.Prelude.{◌≡◌, true, ◌+◌, ◌≤◌, length};
ghost use Rattle.format.specs.Lines;
ghost use Rattle.job.specs.AnswerLines;
ghost use Rattle.job_answer.specs.Writing;
ghost use Rattle.error.specs.Carries;
ghost use Rattle.job_stream.specs.Feeding;
ghost use Rattle.job_lines.specs.Wire;

use error::Carried;
use job_answer::Answered;
use job_stream::{Next, Outcome};

// Stays: `finished` and `FinishesFitting` fix its three parts.
// Whether an answer fitted the lent bytes, how many are used then, and how many it has with its LF.
#[derive(Clone, Copy)]
pub struct Put {
    pub fits: bool,
    pub used: usize,
    pub needed: usize,
}

// How many bytes of a block are taken, how many of a cut line are held, how many bytes of the output are used, and how many the answer
// needs that did not fit.
#[derive(Clone, Copy)]
pub struct Taken {
    pub at: usize,
    pub count: usize,
    pub used: usize,
    pub needed: usize,
}

// How many bytes of a block are taken, how many of a cut line are held, how many bytes of the output are used, and how the call ended.
#[derive(Clone, Copy)]
pub struct Fed {
    pub taken: usize,
    pub count: usize,
    pub used: usize,
    pub outcome: Outcome,
}

// At the end of the input: how many bytes of the output are used, and how the call ended.
#[derive(Clone, Copy)]
pub struct Last {
    pub used: usize,
    pub outcome: Outcome,
}

// Stays: `step_told` fixes its parts, those of the definition's state.
// One line of a block; `more` where the next one may follow.
#[derive(Clone, Copy)]
pub struct Step {
    pub at: usize,
    pub count: usize,
    pub used: usize,
    pub needed: usize,
    pub more: bool,
}

// A line's answer line, both without LF, with memory for its numbers.
pub(crate) fn answer_with(
    line: &[u8],
    lengths: &mut [usize],
    coordinates: &mut [f64],
    out: &mut [u8],
) -> Answered
    requires in_bounds { 999 ≤ length lengths.old }
    requires in_bounds_2 { 962 ≤ length coordinates.old }
    ensures answered { result ≡ Writing.bytes_answered (AnswerLines.answer_line line.now) out.old }
    ensures written { out.new ≡ Lines.bytes_written (AnswerLines.answer_line line.now) out.old }
{
    let p = format_job::parse_job(line, lengths, coordinates);
    if p.refusal.granted() {
        let a = job_run::job(
            p.outward,
            p.distance,
            &lengths[..p.rings],
            &coordinates[..p.count],
        );
        return job_answer::answer_bytes(a, out);
    }
    job_answer::no_line(p.refusal.number(), out)
}

// A line's answer line, both without LF, to lent bytes: question 20 last.
pub fn answer_line(line: &[u8], out: &mut [u8]) -> Answered
    ensures answered { result ≡ Writing.bytes_answered (AnswerLines.answer_line line.now) out.old }
    ensures written { out.new ≡ Lines.bytes_written (AnswerLines.answer_line line.now) out.old }
{
    let mut lengths = [0usize; 999];
    let mut coordinates = [0.0; 962];
    answer_with(line, &mut lengths, &mut coordinates, out)
}

// How many bytes an answer line has with its LF, by what its write answered.
pub(crate) fn bytes_needed(a: Answered) -> usize
    requires { a.count + (Carries.carried a.refusal).first ≤ 16384 }
    ensures { result ≡ Wire.needed_by a }
{
    a.count + Carried::from(a.refusal).first + 1
}

// The answer line and its LF, to lent bytes from `used` on; where they do not fit, nothing.
pub(crate) fn put_answer(
    line: &[u8],
    lengths: &mut [usize],
    coordinates: &mut [f64],
    out: &mut [u8],
    used: usize,
) -> Put
    requires in_bounds { 999 ≤ length lengths.old }
    requires in_bounds_2 { 962 ≤ length coordinates.old }
    ensures told { result ≡ Wire.answer_put line.now out.old used }
    ensures written { out.new ≡ Wire.put_written line.now out.old used }
{
    let size = out.len();
    if used < size {
        let a = answer_with(line, lengths, coordinates, &mut out[used..size - 1]);
        if a.refusal.granted() {
            let end = used + a.count;
            out[end] = b'\n';
            return Put {
                fits: true,
                used: end + 1,
                needed: a.count + 1,
            };
        }
        return Put {
            fits: false,
            used,
            needed: bytes_needed(a),
        };
    }
    let b = answer_with(line, lengths, coordinates, &mut out[size..]);
    Put {
        fits: false,
        used,
        needed: bytes_needed(b),
    }
}

// The answer of the line that was found: in the block, or held.
pub(crate) fn put_next(
    block: &[u8],
    at: usize,
    next: Next,
    held: &[u8],
    lengths: &mut [usize],
    coordinates: &mut [f64],
    out: &mut [u8],
    used: usize,
) -> Put
    requires in_bounds { 999 ≤ length lengths.old }
    requires in_bounds_2 { 962 ≤ length coordinates.old }
    requires at_le_stop { at ≤ next.stop }
    requires stop_in_bounds { next.stop ≤ length block.now }
    requires count_in_bounds { next.count ≤ length held.now }
    ensures told { result ≡ Wire.answer_put (Wire.line_of block.now at next held.now) out.old used }
    ensures written { out.new ≡ Wire.put_written (Wire.line_of block.now at next held.now) out.old used }
{
    if next.direct {
        return put_answer(&block[at..next.stop], lengths, coordinates, out, used);
    }
    put_answer(&held[..next.count], lengths, coordinates, out, used)
}

// One line of a block: it is answered, or what there is of it is held.
pub(crate) fn feed_line(
    block: &[u8],
    at: usize,
    held: &mut [u8],
    count: usize,
    lengths: &mut [usize],
    coordinates: &mut [f64],
    out: &mut [u8],
    used: usize,
) -> Step
    requires in_bounds { 999 ≤ length lengths.old }
    requires in_bounds_2 { 962 ≤ length coordinates.old }
    requires in_bounds_3 { 16385 ≤ length held.old }
    requires count_bound { count ≤ 16385 }
    requires at_in_bounds { at ≤ length block.now }
    ensures told { result ≡ Wire.step_told
        (Feeding.feed_line block.now (Wire.feed_of at held.old count out.old used)) }
    ensures held { held.new ≡ Wire.held_of
        (Feeding.feed_line block.now (Wire.feed_of at held.old count out.old used)) }
    ensures written { out.new ≡ Wire.out_of
        (Feeding.feed_line block.now (Wire.feed_of at held.old count out.old used)) }
{
    let next = job_stream::next_line(block, at, held, count);
    if next.ended {
        let p = put_next(block, at, next, held, lengths, coordinates, out, used);
        if p.fits {
            return Step {
                at: next.stop + 1,
                count: 0,
                used: p.used,
                needed: 0,
                more: true,
            };
        }
        return Step {
            at: base::choose(next.direct, at, next.stop),
            count: next.count,
            used,
            needed: p.needed,
            more: false,
        };
    }
    Step {
        at: next.stop,
        count: next.count,
        used,
        needed: 0,
        more: false,
    }
}

// The lines of a block, until it is taken or an answer does not fit the output; `count` bytes of a cut line are held. A call with 16,385
// bytes of output takes one line at least, or the whole block. Where the memory lent for a cut line has not the room, or the count is none
// that a call hands back, nothing is changed.
pub fn feed(block: &[u8], held: &mut [u8], count: usize, out: &mut [u8]) -> Fed
    ensures told { result ≡ Wire.feed_told block.now held.old count out.old }
    ensures held { held.new ≡ Wire.held_of (Wire.stream_fed block.now held.old count out.old) }
    ensures written { out.new ≡ Wire.out_of (Wire.stream_fed block.now held.old count out.old) }
{
    if held.len() < 16385 {
        return Fed {
            taken: 0,
            count,
            used: 0,
            outcome: Outcome::Unheld,
        };
    }
    if 16385 < count {
        return Fed {
            taken: 0,
            count,
            used: 0,
            outcome: Outcome::Miscounted,
        };
    }
    let mut lengths = [0usize; 999];
    let mut coordinates = [0.0; 962];
    let t = feed_lines(block, held, count, &mut lengths, &mut coordinates, out);
    Fed {
        taken: t.at,
        count: t.count,
        used: t.used,
        outcome: job_stream::how_ended(t.at == block.len(), t.needed),
    }
}

// The same with memory for a line's numbers.
pub(crate) fn feed_lines(
    block: &[u8],
    held: &mut [u8],
    count: usize,
    lengths: &mut [usize],
    coordinates: &mut [f64],
    out: &mut [u8],
) -> Taken
    requires in_bounds { 999 ≤ length lengths.old }
    requires in_bounds_2 { 962 ≤ length coordinates.old }
    requires in_bounds_3 { 16385 ≤ length held.old }
    requires count_bound { count ≤ 16385 }
    ensures told { result ≡ Wire.told (Feeding.fed block.now held.old count out.old) }
    ensures held { held.new ≡ Wire.held_of (Feeding.fed block.now held.old count out.old) }
    ensures written { out.new ≡ Wire.out_of (Feeding.fed block.now held.old count out.old) }
{
    let mut at = 0usize;
    let mut have = count;
    let mut used = 0usize;
    for _ in 0..=block.len() {
        let s = feed_line(block, at, held, have, lengths, coordinates, out, used);
        at = s.at;
        have = s.count;
        used = s.used;
        if !s.more {
            return Taken {
                at,
                count: have,
                used,
                needed: s.needed,
            };
        }
    }
    Taken {
        at,
        count: have,
        used,
        needed: 0,
    }
}

// The end of the input: a line that has a byte is answered. 16,385 bytes of output are always enough.
pub fn finish(held: &[u8], count: usize, out: &mut [u8]) -> Last
    ensures told { result ≡ Wire.finish_told held.now count out.old }
    ensures written { out.new ≡ Wire.finish_written held.now count out.old }
{
    if held.len() < 16385 {
        return Last {
            used: 0,
            outcome: Outcome::Unheld,
        };
    }
    if 16385 < count {
        return Last {
            used: 0,
            outcome: Outcome::Miscounted,
        };
    }
    if count == 0 {
        return Last {
            used: 0,
            outcome: Outcome::Whole,
        };
    }
    let mut lengths = [0usize; 999];
    let mut coordinates = [0.0; 962];
    let p = put_answer(&held[..count], &mut lengths, &mut coordinates, out, 0);
    Last {
        used: p.used,
        outcome: job_stream::how_ended(p.fits, p.needed),
    }
}
