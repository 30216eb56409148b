// The stream of lines: where the next line of a block ends, and the bytes of one that a block's end cuts, in lent memory.
#![tactic(auto)]

ghost use Rattle.std.specs.Prelude.{◌≡◌};
ghost use Rattle.job_stream.specs.Feeding;

use error::Refusal;

// The line's part of the block ends at `stop`, before an LF if `ended`. A line that is `direct` is that part; any other is now held,
// `count` bytes of it.
#[derive(Clone, Copy)]
pub struct Next {
    pub stop: usize,
    pub ended: bool,
    pub direct: bool,
    pub count: usize,
}

// How a call on the stream ended. `Whole`: the whole block is taken, or at the input's end the last line is answered. `Full`: the next
// answer does not fit what is left of the output; it carries how many bytes that answer has with its LF. `Unheld`: the memory lent for a
// cut line has fewer than 16,385 bytes; `Miscounted`: more than 16,385 are said to be held, which no call hands back. Of these two nothing
// is done.
#[derive(Clone, Copy)]
pub enum Outcome {
    Whole,
    Full(usize),
    Unheld,
    Miscounted,
}

impl Outcome {
    // The refusal that it is: 20 with the bytes needed, of the output or of the memory for a cut line; 21 of a count that no call
    // hands back.
    pub fn refusal(self) -> Refusal
        ensures { result ≡ Feeding.outcome_refusal self }
    {
        match self {
            Outcome::Whole => Refusal::Granted,
            Outcome::Full(needed) => Refusal::Short(needed),
            Outcome::Unheld => Refusal::Short(16385),
            Outcome::Miscounted => Refusal::Shape,
        }
    }
}

// How a call with the memory that it needs ended.
pub fn how_ended(whole: bool, needed: usize) -> Outcome
    ensures { result ≡ Feeding.how_ended whole needed }
{
    if whole {
        Outcome::Whole
    } else {
        Outcome::Full(needed)
    }
}

// The place of the first LF from `at` on, or the end of the block.
pub(crate) fn line_end(block: &[u8], at: usize) -> usize
    ensures { result ≡ Feeding.line_end block.now at }
{
    let mut k = at;
    // Stays: a `for` takes 1.4 times the instructions a byte, and 1.46 times the time.
    while k < block.len() {
        if block[k] == b'\n' {
            return k;
        }
        k += 1;
    }
    k
}

// More bytes of a line after those that are held, up to 16,385 in all. Answers how many are held then.
pub(crate) fn hold(part: &[u8], held: &mut [u8], count: usize) -> usize
    ensures counted { result ≡ Feeding.count_with count part.now }
    ensures held { held.new ≡ Feeding.held_with held.old count part.now }
{
    let n = part.len().min(base::less(16385, count));
    format_digits::put_bytes(&part[..n], held, count);
    count + n
}

// The next line of a block, from `at` on. `count` bytes of it are held from the blocks before.
pub fn next_line(block: &[u8], at: usize, held: &mut [u8], count: usize) -> Next
    ensures found { result ≡ Feeding.next_of block.now at count }
    ensures held { held.new ≡ Feeding.next_held block.now at held.old count }
{
    let stop = line_end(block, at);
    if stop < block.len() {
        if count == 0 {
            return Next {
                stop,
                ended: true,
                direct: true,
                count: 0,
            };
        }
        let whole = hold(&block[at..stop], held, count);
        return Next {
            stop,
            ended: true,
            direct: false,
            count: whole,
        };
    }
    let from = at.min(block.len());
    let begun = hold(&block[from..], held, count);
    Next {
        stop,
        ended: false,
        direct: false,
        count: begun,
    }
}
