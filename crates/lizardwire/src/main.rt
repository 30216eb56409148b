// Job lines on standard input, one answer line a job on standard output.
#![tactic(auto)]

ghost use Rattle.std.specs.Prelude.{◌≤◌, ◌≡◌, length, IfOk, IfSome, MatchOption};
ghost use Rattle.lizardwire.specs.Program;

use std::io;
use std::io::{Read, Write};

// After a round over a block: how many of its bytes are taken, how many of a cut line are held, and how many bytes of the output are to be
// written.
#[derive(Clone, Copy)]
struct Round {
    at: usize,
    count: usize,
    used: usize,
}

// One round of the loop over a block: the lines from `at` on, as many as have their answers in the output.
fn next_round(block: &[u8], at: usize, held: &mut [u8], count: usize, out: &mut [u8]) -> Round
    requires { at ≤ length block.now }
    ensures told { result ≡ Program.round_after block.now at held.old count out.old }
    ensures held { held.new ≡ Program.held_after block.now at held.old count out.old }
    ensures written { out.new ≡ Program.out_after block.now at held.old count out.old }
{
    let fed = job_lines::feed(&block[at..], held, count, out);
    Round {
        at: at + fed.taken,
        count: fed.count,
        used: fed.used,
    }
}

// Round after round, until the block is taken; the answers of each are written before the next. Each round takes a byte at least. Answers
// how many bytes of a cut line are held then.
fn feed_block<W: Write>(
    block: &[u8],
    held: &mut [u8],
    count: usize,
    out: &mut [u8],
    to: &mut W,
) -> io::Result<usize>
    requires in_bounds { 16385 ≤ length held.old }
    requires count_bound { count ≤ 16385 }
    requires in_bounds_2 { 16385 ≤ length out.old }
    ensures taken { IfOk result (Program.BlockTaken block.now held.old count held.new) }
{
    let mut at = 0usize;
    let mut have = count;
    // Stays: no plainer, since each round says how far the block is taken
    while at < block.len() {
        let t = next_round(block, at, held, have, out);
        to.write_all(&out[..t.used])?;
        have = t.count;
        at = t.at;
    }
    Ok(have)
}

// The end of the input: a last line without LF is answered.
fn end_input<W: Write>(held: &[u8], count: usize, out: &mut [u8], to: &mut W) -> io::Result<()> {
    let last = job_lines::finish(held, count, out);
    to.write_all(&out[..last.used])
}

// What a read gave is taken: of no bytes the input's end is answered, None; of others the block, and how many bytes of a cut line are held.
fn take_read<W: Write>(
    part: &[u8],
    held: &mut [u8],
    count: usize,
    out: &mut [u8],
    to: &mut W,
) -> io::Result<Option<usize>>
    requires in_bounds { 16385 ≤ length held.old }
    requires count_bound { count ≤ 16385 }
    requires in_bounds_2 { 16385 ≤ length out.old }
    ensures goes { IfOk result (λ o. MatchOption o (length part.now ≡ 0) (Program.BlockTaken part.now held.old count held.new)) }
{
    if part.len() == 0 {
        end_input(held, count, out, to)?;
        return Ok(None);
    }
    let have = feed_block(part, held, count, out, to)?;
    Ok(Some(have))
}

// Reads once, and answers how many bytes of a cut line are held then; None at the end of the input.
fn read_some<R: Read, W: Write>(
    from: &mut R,
    block: &mut [u8],
    held: &mut [u8],
    count: usize,
    out: &mut [u8],
    to: &mut W,
) -> io::Result<Option<usize>>
    requires in_bounds { 16385 ≤ length held.old }
    requires count_bound { count ≤ 16385 }
    requires in_bounds_2 { 16385 ≤ length out.old }
    ensures { IfOk result (λ held. IfSome held (λ n. n ≤ 16385)) }
{
    let n = from.read(block)?;
    take_read(&block[..n], held, count, out, to)
}

// A proved loop has to end: it has more rounds than any run uses up.
fn read_all<R: Read, W: Write>(
    from: &mut R,
    block: &mut [u8],
    held: &mut [u8],
    out: &mut [u8],
    to: &mut W,
) -> io::Result<()>
    requires in_bounds { 16385 ≤ length held.old }
    requires in_bounds_2 { 16385 ≤ length out.old }
{
    let mut count = 0usize;
    for _ in 0..u64::MAX {
        let Some(have) = read_some(from, block, held, count, out, to)? else {
            break;
        };
        count = have;
    }
    Ok(())
}

fn main(rt: HostRuntime) {
    let mut from = rt.stdin();
    let mut to = rt.stdout();
    let mut block = [0u8; 65536];
    let mut out = [0u8; 65536];
    let mut held = [0u8; 16385];
    if read_all(&mut from, &mut block, &mut held, &mut out, &mut to).is_err() {
        let _ = eprintln!(rt; "lizardwire: read or write error");
    }
}
