// The field that starts at a place of a job line, as the side or as a number.
#![tactic(auto)]

ghost use Rattle.std.specs.Prelude.{◌≡◌, false, MatchOption};
ghost use Rattle.format.specs.Fields;
ghost use Rattle.format.specs.Fields.{fields};
ghost use Rattle.format.specs.JobLines.{side_field, is_side};
ghost use Rattle.format_fields.specs.Places.{field_at, ReadAt, SideAt};

use format_numerals::Number;

// What the field at a place stands for, and where the next field starts.
#[derive(Clone, Copy)]
pub struct At<T> {
    pub value: T,
    pub next: usize,
}

// Where the field that starts at `start` ends: at a comma, or at the end of the line.
pub(crate) fn field_end(line: &[u8], start: usize) -> usize
    ensures { result ≡ Fields.field_end line.now start }
{
    for at in start..line.len() {
        if line[at] == b',' {
            return at;
        }
    }
    line.len().max(start)
}

// The side, the first field of a line: whether it is `outset`. None where it is not `inset` either.
pub fn side_of(line: &[u8]) -> Option<At<bool>>
    ensures { MatchOption result (is_side (side_field (fields line.now)) ≡ false) (SideAt line.now) }
{
    let end = field_end(line, 0);
    let field = &line[..end];
    let outward = field == b"outset".as_slice();
    if outward | (field == b"inset".as_slice()) {
        return Some(At {
            value: outward,
            next: end + 1,
        });
    }
    None
}

// The number at a place of a line. None where the field there is none, or where the place is past the end of the line.
pub fn number_at<T: Number>(line: &[u8], at: usize) -> Option<At<T>>
    ensures { MatchOption result (T.formed (field_at line.now at) ≡ false) (ReadAt T.formed T.value_of line.now at) }
{
    if line.len() < at {
        return None;
    }
    let end = field_end(line, at);
    let value = T::read(&line[at..end])?;
    Some(At {
        value,
        next: end + 1,
    })
}
