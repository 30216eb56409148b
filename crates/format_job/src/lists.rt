// The lists of a line, from its first vertex count on: looked through first, and stored only where all of it is well formed and has room.
ghost use Rattle.std.specs.Prelude.{◌≡◌};
ghost use Rattle.format.specs.Fields.{fields_from};
ghost use Rattle.format_job.specs.Reads.{ListsRead};

use crate::walk;
use error::Refusal;

// 22 or 20 of the lists, and how many coordinates were stored.
#[derive(Clone, Copy)]
pub(crate) struct Lists {
    pub refusal: Refusal,
    pub count: usize,
}

fn refused(refusal: Refusal) -> Lists
    ensures refusal { result.refusal ≡ refusal }
    ensures count { result.count ≡ 0 }
{
    Lists { refusal, count: 0 }
}

pub(crate) fn read_lists(
    line: &[u8],
    start: usize,
    rings: usize,
    lengths: &mut [usize],
    coordinates: &mut [f64],
) -> Lists
    ensures { ListsRead (fields_from line.now start) rings
        lengths.old lengths.new coordinates.old coordinates.new result.refusal result.count }
{
    let Some(next) = walk::read_counts(line, start, rings, &mut []) else {
        return refused(Refusal::Job);
    };
    let Some(count) = walk::read_floats(line, next, &mut []) else {
        return refused(Refusal::Job);
    };
    if lengths.len() < rings {
        return refused(Refusal::Short(rings));
    }
    if coordinates.len() < count {
        return refused(Refusal::Short(count));
    }
    walk::read_counts(line, start, rings, lengths);
    walk::read_floats(line, next, coordinates);
    Lists {
        refusal: Refusal::Granted,
        count,
    }
}
