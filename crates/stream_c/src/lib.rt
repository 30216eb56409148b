// The stream of job lines for C: its state in lent bytes, a call for each block of the input, and one for its end.
#![tactic(auto)]

ghost use Rattle.std.specs.Prelude.{◌≡◌, ◌≤◌, length};
ghost use Rattle.error.specs.Carries;
ghost use Rattle.stream_c.specs.State;
ghost use Rattle.stream_c.specs.Calls;

use error::{Carried, Refusal};
use job_stream::Outcome;
use told::LwLine;

// What a call on the stream answers: the refusal's number, 0 where granted, and with 20 the bytes needed; how many bytes of the block are
// done with, and how many of the output are answers.
#[repr(C)]
#[derive(Clone, Copy)]
pub struct LwFed {
    pub refusal: usize,
    pub first: usize,
    pub taken: usize,
    pub written: usize,
}

pub(crate) fn count_of(low: u8, high: u8) -> usize
    ensures { result ≡ State.count_of low high }
{
    low as usize + 256 * high as usize
}

// How many bytes of a cut line a state says that it holds: its first two bytes, the low one first.
pub(crate) fn said(state: &[u8]) -> usize
    requires { 16387 ≤ length state.now }
    ensures { result ≡ State.said state.now }
{
    count_of(state[0], state[1])
}

// The same state with another count.
pub(crate) fn say(state: &mut [u8], count: usize)
    requires { 2 ≤ length state.old }
    ensures { state.new ≡ State.saying state.old count }
{
    state[0] = (count % 256) as u8;
    state[1] = (count / 256 % 256) as u8;
}

// The refusal of a state that no call can work on: 20 of one with too few bytes, then 21 of one that says it holds more than its room.
pub(crate) fn judged(state: &[u8]) -> Refusal
    ensures { result ≡ State.judged state.now }
{
    if state.len() < 16387 {
        return Refusal::Short(16387);
    }
    if 16385 < said(state) {
        return Refusal::Shape;
    }
    Refusal::Granted
}

pub(crate) fn answer(refusal: Refusal, taken: usize, written: usize) -> LwFed
    ensures { result ≡ Calls.fed_answer (Carries.carried refusal) taken written }
{
    let c = Carried::from(refusal);
    LwFed {
        refusal: c.question,
        first: c.first,
        taken,
        written,
    }
}

// Makes a state without a line: 20 where it is too short.
pub fn made(state: &mut [u8]) -> LwLine
    ensures answered { result ≡ Calls.made state.old }
    ensures state { state.new ≡ Calls.made_state state.old }
{
    if state.len() < 16387 {
        return told::line(Refusal::Short(16387), 16387);
    }
    say(state, 0);
    told::line(Refusal::Granted, 16387)
}

// The refusal of a call on a block: that the output is full is none once something is written.
pub(crate) fn heard(outcome: Outcome, written: usize) -> Refusal
    ensures { result ≡ Calls.heard outcome written }
{
    if written == 0 {
        return outcome.refusal();
    }
    Refusal::Granted
}

// The next bytes of the input: 20 and 21 of the state, then 20 where not even the first answer fits the output. A granted call takes the
// whole block or writes something.
pub fn fed(block: &[u8], state: &mut [u8], out: &mut [u8]) -> LwFed
    ensures answered { result ≡ Calls.lw_feed block.now state.old out.old }
    ensures state { state.new ≡ Calls.lw_feed_state block.now state.old out.old }
    ensures written { out.new ≡ Calls.lw_feed_out block.now state.old out.old }
{
    let refusal = judged(state);
    if refusal.granted() {
        let count = said(state);
        let f = job_lines::feed(block, &mut state[2..16387], count, out);
        say(state, f.count);
        return answer(heard(f.outcome, f.used), f.taken, f.used);
    }
    answer(refusal, 0, 0)
}

// The end of the input: 20 and 21 of the state, then 20 of the output. Once it is granted, nothing is held.
pub fn finished(state: &mut [u8], out: &mut [u8]) -> LwFed
    ensures answered { result ≡ Calls.lw_finish state.old out.old }
    ensures state { state.new ≡ Calls.lw_finish_state state.old out.old }
    ensures written { out.new ≡ Calls.lw_finish_out state.old out.old }
{
    let refusal = judged(state);
    if refusal.granted() {
        let count = said(state);
        let last = job_lines::finish(&state[2..16387], count, out);
        let ended = last.outcome.refusal();
        if ended.granted() {
            say(state, 0);
            return answer(ended, 0, last.used);
        }
        return answer(ended, 0, last.used);
    }
    answer(refusal, 0, 0)
}
