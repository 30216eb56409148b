// Job lines: one at a time, and as a stream.
ghost use Rattle.std.specs.Prelude.{◌≡◌};
ghost use Rattle.format.specs.Lines;
ghost use Rattle.job.specs.AnswerLines;
ghost use Rattle.job_answer.specs.Writing;
ghost use Rattle.stream_c.specs.Calls;
ghost use Rattle.lizardwire_c.specs.Exports;

use stream_c::LwFed;
use told::LwLine;

// The answer line of a job line, both without LF, written to `out`: question 20 last. A refused job is an answer, too.
pub fn lw_job_line(line: &[u8], out: &mut [u8]) -> LwLine
    ensures answered { result ≡ Exports.told_line (Writing.bytes_answered (AnswerLines.answer_line line.now) out.old) }
    ensures written { out.new ≡ Lines.bytes_written (AnswerLines.answer_line line.now) out.old }
{
    let a = job_lines::answer_line(line, out);
    told::line(a.refusal, a.count)
}

// Makes the state of a stream of job lines in lent bytes: question 20 of them.
pub fn lw_stream(state: &mut [u8]) -> LwLine
    ensures answered { result ≡ Calls.made state.old }
    ensures state { state.new ≡ Calls.made_state state.old }
{
    stream_c::made(state)
}

// The next bytes of a stream: 20 and 21 of the state, then 20 where not even the first answer fits the output.
pub fn lw_feed(block: &[u8], state: &mut [u8], out: &mut [u8]) -> LwFed
    ensures answered { result ≡ Calls.lw_feed block.now state.old out.old }
    ensures state { state.new ≡ Calls.lw_feed_state block.now state.old out.old }
    ensures written { out.new ≡ Calls.lw_feed_out block.now state.old out.old }
{
    stream_c::fed(block, state, out)
}

// The end of a stream: 20 and 21 of the state, then 20 of the output.
pub fn lw_finish(state: &mut [u8], out: &mut [u8]) -> LwFed
    ensures answered { result ≡ Calls.lw_finish state.old out.old }
    ensures state { state.new ≡ Calls.lw_finish_state state.old out.old }
    ensures written { out.new ≡ Calls.lw_finish_out state.old out.old }
{
    stream_c::finished(state, out)
}
