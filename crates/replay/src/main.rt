// Replays the reference's answers to questions about outlines, regions, turns and pairs of rings, and says how many differ.
//
// A line of standard input has fields of 16 lower-case hexadecimal digits, parted by commas: the kind of question,
// how many fields of answer follow, the answer, the question.
#![tactic(auto)]

mod answer;
mod holed;
mod kind;
mod kinds;
mod line;
mod offsets;
mod question;
mod shapes;
mod tally;
mod turns;

// The lines of standard input, which `text` has room for, compared and counted.
fn compared(text: &mut [u8; 4194304]) -> tally::Tally {
    let n = io::read_full(0, text);
    line::tally_of(&text[..n])
}

fn main(rt: HostRuntime) {
    let mut text = [0u8; 4194304];
    let tally = compared(&mut text);
    let _ = print!(rt; "{tally}");
}
