// Public functions that no other program calls, or never with bad input and short output, on drawn cases. A line has the case, the
// refusal's number with the ring and the whole numbers that it carries, counts, and numbers by their bits.
#![tactic(auto)]

mod cases;
mod shown;
mod stream;

fn main(rt: HostRuntime) {
    cases::writes(&rt);
    cases::single(&rt);
    cases::given(&rt);
    cases::read(&rt);
    stream::streams(&rt);
    stream::jobs(&rt);
    stream::answers(&rt);
}
