// Reading a job line: a walk from field to field by place that looks at all of it, and a second one that writes its numbers to lent memory.
#![tactic(auto)]

ghost use Rattle.std.specs.Prelude.{◌≡◌};
ghost use Rattle.format_job.specs.Reads;

use error::Refusal;

mod head;
mod lists;
mod walk;

// What a job line says: Granted, the side, the distance, how many rings and how many coordinates; or the refusal, and the rest false and 0.
#[derive(Clone, Copy)]
pub struct Parsed {
    pub refusal: Refusal,
    pub outward: bool,
    pub distance: f64,
    pub rings: usize,
    pub count: usize,
}

fn refused(refusal: Refusal) -> Parsed
    ensures { result ≡ Reads.unparsed refusal }
{
    Parsed {
        refusal,
        outward: false,
        distance: 0.0,
        rings: 0,
        count: 0,
    }
}

// A line, without its LF: 22, then 20 of the vertex counts, then 20 of the coordinates. They stand at the front of the lent memory,
// and a refused read changes nothing. 999 and 962 numbers are room for every line.
pub fn parse_job(line: &[u8], lengths: &mut [usize], coordinates: &mut [f64]) -> Parsed
    ensures answered { result ≡ Reads.parse_answered line.now lengths.old coordinates.old }
    ensures counted { lengths.new ≡ Reads.lengths_written line.now lengths.old coordinates.old }
    ensures numbered { coordinates.new ≡ Reads.coordinates_written line.now lengths.old coordinates.old }
{
    let Some(head) = head::head_of(line) else {
        return refused(Refusal::Job);
    };
    let found = lists::read_lists(line, head.next, head.rings, lengths, coordinates);
    let refusal = found.refusal;
    if !refusal.granted() {
        return refused(refusal);
    }
    Parsed {
        refusal: Refusal::Granted,
        outward: head.outward,
        distance: head.distance,
        rings: head.rings,
        count: found.count,
    }
}
