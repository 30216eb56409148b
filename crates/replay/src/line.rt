// Lines: bytes into fields, a whole line into its comparison.
use crate::answer::Answer;
use crate::kind::Kind;
use crate::question::Question;
use crate::tally::Tally;
use crate::{holed, kinds, offsets, shapes, turns};

// How many fields a line may have.
const ROOM: usize = 1100;

// Room for the fields of a line: as whole numbers, and as floats.
#[derive(Drop)]
struct Room {
    words: [u64; ROOM],
    numbers: [f64; ROOM],
}

impl Room {
    // The fields of a line, put here; none where it cannot be read.
    fn read(&mut self, line: &[u8]) -> Option<Question> {
        let mut count = 0usize;
        for text in line.split(|b| *b == b',') {
            let word = format_numerals::hex_field(text)?;
            *self.words.get_mut(count)? = word;
            *self.numbers.get_mut(count)? = format_numerals::float_of(word);
            count += 1;
        }
        Some(Question {
            words: self.words.get(..count)?,
            numbers: self.numbers.get(..count)?,
        })
    }
}

// Whether the answer is the one that the library gives to a question of this kind.
fn answered(kind: Kind, answer: Answer, asked: Question) -> bool {
    match kind {
        Kind::Outline => kinds::outline(answer, asked),
        Kind::Contains => shapes::contains(answer, asked),
        Kind::Nearest => shapes::nearest(answer, asked),
        Kind::Measures => shapes::measures(answer, asked),
        Kind::Clearance => shapes::clearance(answer, asked),
        Kind::Edge => shapes::edge(answer, asked),
        Kind::Point => kinds::point(answer, asked),
        Kind::Area => kinds::area(answer, asked),
        Kind::Offset => offsets::offset(answer, asked),
        Kind::Region => holed::region(answer, asked),
        Kind::Inset => holed::inset(answer, asked, false),
        Kind::Within => holed::within(answer, asked),
        Kind::Turn => turns::turned(answer, asked),
        Kind::Meet => turns::meeting(answer, asked),
        Kind::Fold => turns::folded(answer, asked),
        Kind::Pair => shapes::pair(answer, asked),
        Kind::Again => holed::inset(answer, asked, true),
    }
}

// A line's kind, and whether its answer is right; none where it cannot be read.
fn compared(line: &[u8], room: &mut Room) -> Option<(Kind, bool)> {
    let fields = room.read(line)?;
    let kind = Kind::from_number(*fields.words.first()?)?;
    let given = *fields.words.get(1)? as usize;
    let rest = fields.from(2);
    let (stored, _) = rest.words.split_at_checked(given)?;
    let answer = Answer { fields: stored };
    Some((kind, answered(kind, answer, rest.from(given))))
}

// How many lines differ, of each kind. A line without its LF counts as one that cannot be read.
pub(crate) fn tally_of(text: &[u8]) -> Tally {
    let mut room = Room {
        words: [0; ROOM],
        numbers: [0.0; ROOM],
    };
    let mut tally = Tally::new();
    let mut rest = text;
    // Stays: no plainer, since the library finds the next LF, and a last line without one is told apart
    while let Some(n) = memchr::memchr(b'\n', rest) {
        match compared(&rest[..n], &mut room) {
            Some((kind, same)) => tally.add(kind, same),
            None => tally.add_unread(),
        }
        rest = &rest[n + 1..];
    }
    if !rest.is_empty() {
        tally.add_unread();
    }
    tally
}
