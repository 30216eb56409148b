// How many lines were compared and how many differ, by kind.
use crate::kind::{KINDS, Kind};
use std::fmt;

#[derive(Clone, Copy)]
struct Count {
    compared: u64,
    differ: u64,
}

impl Count {
    fn new() -> Count {
        Count {
            compared: 0,
            differ: 0,
        }
    }

    fn add(&mut self, same: bool) {
        self.compared = self.compared.saturating_add(1);
        self.differ = self.differ.saturating_add(u64::from(!same));
    }
}

impl fmt::Display for Count {
    fn fmt<W: fmt::Write>(&self, f: &mut fmt::Formatter<W>) -> fmt::Result {
        write!(f, "{} compared, {} differ", self.compared, self.differ)
    }
}

// The lines of each kind, those that cannot be read, and all.
#[derive(Drop)]
pub(crate) struct Tally {
    kinds: [Count; 17],
    unread: Count,
    total: Count,
}

impl Tally {
    pub(crate) fn new() -> Tally {
        Tally {
            kinds: [Count::new(); 17],
            unread: Count::new(),
            total: Count::new(),
        }
    }

    // One line more of this kind.
    pub(crate) fn add(&mut self, kind: Kind, same: bool) {
        self.kinds[kind as usize].add(same);
        self.total.add(same);
    }

    // One line more that cannot be read: it counts as one that differs.
    pub(crate) fn add_unread(&mut self) {
        self.unread.add(false);
        self.total.add(false);
    }
}

impl fmt::Display for Tally {
    fn fmt<W: fmt::Write>(&self, f: &mut fmt::Formatter<W>) -> fmt::Result {
        for (kind, count) in KINDS.iter().zip(&self.kinds) {
            writeln!(f, "{:<9} {count}", kind.name())?;
        }
        writeln!(f, "{:<9} {}", "unread", self.unread)?;
        writeln!(f, "{:<9} {}", "total", self.total)
    }
}
