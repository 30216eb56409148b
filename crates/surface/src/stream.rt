// Job lines: the stream with too little memory and too little output, a line read to memory that is too short, and an answer that is
// no shape.
use crate::cases;
use crate::shown::{Bits, Numbers, Told, Wholes};
use error::Refusal;
use region::RegionOffset;

// Two empty lines and a byte of a third: how the call ended, how much of the block is taken, how much of a cut line is held, and how much
// of the output is used.
fn feed(rt: &impl Print, name: &str, held: &mut [u8], count: usize, out: &mut [u8]) {
    let fed = job_lines::feed(b"\n\ni", held, count, out);
    let told = Told(fed.outcome.refusal());
    let _ = println!(rt; "{name}: {told} {} {} {}", fed.taken, fed.count, fed.used);
}

// The end of the input, likewise: how the call ended, and how much of the output is used.
fn finish(rt: &impl Print, name: &str, held: &[u8], count: usize, out: &mut [u8]) {
    let last = job_lines::finish(held, count, out);
    let told = Told(last.outcome.refusal());
    let _ = println!(rt; "{name}: {told} 0 0 {}", last.used);
}

// The answers of the two lines have six bytes each; a cut line has 16385 at most.
pub(crate) fn streams(rt: &impl Print) {
    feed(rt, "feed to 12", &mut [105; 16385], 0, &mut [0; 12]);
    feed(rt, "feed to 11", &mut [105; 16385], 0, &mut [0; 11]);
    feed(rt, "feed to 5", &mut [105; 16385], 0, &mut [0; 5]);
    feed(rt, "feed of 1 held to 5", &mut [105; 16385], 1, &mut [0; 5]);
    feed(
        rt,
        "feed of 16386 held",
        &mut [105; 16385],
        16386,
        &mut [0; 12],
    );
    feed(
        rt,
        "feed with 16384 for a line",
        &mut [105; 16384],
        0,
        &mut [0; 12],
    );
    feed(
        rt,
        "feed with 16384, of 16386 held",
        &mut [105; 16384],
        16386,
        &mut [0; 12],
    );
    finish(rt, "finish of none", &[105; 16385], 0, &mut [0; 6]);
    finish(rt, "finish of 1", &[105; 16385], 1, &mut [0; 6]);
    finish(rt, "finish of 16385", &[105; 16385], 16385, &mut [0; 6]);
    finish(rt, "finish of 16386", &[105; 16385], 16386, &mut [0; 6]);
    finish(rt, "finish of 1 to 5", &[105; 16385], 1, &mut [0; 5]);
    finish(
        rt,
        "finish with 16384 for a line",
        &[105; 16384],
        1,
        &mut [0; 6],
    )
}

// What is read to memory of two counts and three coordinates, each 7 before, and the memory afterwards.
fn read(rt: &impl Print, name: &str, line: &[u8]) {
    let mut lengths = [7; 2];
    let mut ps = [7.0; 3];
    let job = format_job::parse_job(line, &mut lengths, &mut ps);
    let told = Told(job.refusal);
    let distance = Bits(job.distance);
    let wholes = Wholes(&lengths);
    let numbers = Numbers(&ps);
    let _ = println!(rt;
        "{name}: {told} {distance} {} {}{wholes}{numbers}",
        job.rings, job.count
    );
}

pub(crate) fn jobs(rt: &impl Print) {
    read(
        rt,
        "parse_job",
        b"inset,3ff0000000000000,2,4,5,4000000000000000,4008000000000000",
    );
    read(
        rt,
        "parse_job, a count that is none",
        b"inset,3ff0000000000000,2,4,x",
    );
    read(
        rt,
        "parse_job, a coordinate that is none",
        b"inset,3ff0000000000000,1,4,4000000000000000,x",
    );
    read(
        rt,
        "parse_job, three counts",
        b"inset,3ff0000000000000,3,4,5,6",
    );
    read(
        rt,
        "parse_job, four coordinates",
        b"inset,3ff0000000000000,0,4000000000000000,4000000000000000,4000000000000000,4000000000000000",
    );
}

// The answer of a square said to have so many vertices, and how many bytes of it are written.
fn answer(rt: &impl Print, name: &str, n: usize, x: f64, out: &mut [u8]) {
    let mut shape = region_new::without_holes(cases::square(4, 10.0)).shape;
    shape.outer = cases::square(n, x);
    let a = job_answer::answer_bytes(
        RegionOffset {
            refusal: Refusal::Granted,
            shape,
            collapses: 0,
            divides: 0,
            joins: 0,
        },
        out,
    );
    let told = Told(a.refusal);
    let _ = println!(rt; "{name}: {told} {}", a.count);
}

pub(crate) fn answers(rt: &impl Print) {
    answer(rt, "answer_bytes to 142", 4, 10.0, &mut [0; 142]);
    answer(rt, "answer_bytes to 141", 4, 10.0, &mut [0; 141]);
    answer(rt, "answer_bytes of 2", 2, 10.0, &mut [0; 142]);
    answer(rt, "answer_bytes of 129", 129, 10.0, &mut [0; 142]);
    answer(rt, "answer_bytes beyond", 4, 2000000000.0, &mut [0; 142])
}
