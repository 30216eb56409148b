// The head of a job line: side, distance and ring count.
ghost use Rattle.std.specs.Prelude.{◌≡◌, false, MatchOption};
ghost use Rattle.format_job.specs.Reads.{head_fits, HeadOf};

// The head, and where the first vertex count starts.
#[derive(Clone, Copy)]
pub(crate) struct Head {
    pub outward: bool,
    pub distance: f64,
    pub rings: usize,
    pub next: usize,
}

// `outset` goes with one ring.
pub(crate) fn head_of(line: &[u8]) -> Option<Head>
    ensures { MatchOption result (head_fits line.now ≡ false) (HeadOf line.now) }
{
    if 16384 < line.len() {
        return None;
    }
    let side = format_fields::side_of(line)?;
    let distance = format_fields::number_at(line, side.next)?;
    let rings = format_fields::number_at(line, distance.next)?;
    if side.value & (rings.value != 1) {
        return None;
    }
    Some(Head {
        outward: side.value,
        distance: distance.value,
        rings: rings.value,
        next: rings.next,
    })
}
