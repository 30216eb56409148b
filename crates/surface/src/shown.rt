// Answers as text.
use error::{Carried, Refusal};
use outline::NewOutline;
use region::NewRegion;
use std::{fmt, io};

// A number by its bits; a NaN by its name.
#[derive(Clone, Copy)]
pub(crate) struct Bits(pub f64);

impl fmt::Display for Bits {
    fn fmt<W: fmt::Write>(&self, f: &mut fmt::Formatter<W>) -> fmt::Result {
        let x = self.0;
        if x != x {
            return write!(f, "nan");
        }
        write!(f, "{:016x}", x.to_bits())
    }
}

// Whole numbers, each after a blank.
#[derive(Clone, Copy)]
pub(crate) struct Wholes<'a>(pub &'a [usize]);

impl fmt::Display for Wholes<'_> {
    fn fmt<W: fmt::Write>(&self, f: &mut fmt::Formatter<W>) -> fmt::Result {
        for n in self.0 {
            write!(f, " {n}")?;
        }
        Ok(())
    }
}

// Numbers, each after a blank.
#[derive(Clone, Copy)]
pub(crate) struct Numbers<'a>(pub &'a [f64]);

impl fmt::Display for Numbers<'_> {
    fn fmt<W: fmt::Write>(&self, f: &mut fmt::Formatter<W>) -> fmt::Result {
        for x in self.0 {
            write!(f, " {}", Bits(*x))?;
        }
        Ok(())
    }
}

// A refusal: its number, the ring and two whole numbers.
#[derive(Clone, Copy)]
pub(crate) struct Told(pub Refusal);

impl fmt::Display for Told {
    fn fmt<W: fmt::Write>(&self, f: &mut fmt::Formatter<W>) -> fmt::Result {
        let c = Carried::from(self.0);
        write!(f, "{} {} {} {}", c.question, c.ring, c.first, c.second)
    }
}

// The outline's count, and its first eight numbers.
pub(crate) fn outline(rt: &impl Print, name: &str, made: &NewOutline) {
    let told = Told(made.refusal);
    let count = made.shape.count;
    let numbers = Numbers(&made.shape.points[..8]);
    let _ = println!(rt; "{name}: {told} {count}{numbers}");
}

// The counts of the outer ring, of the holes and of the first two of them, and the first eight numbers of each.
pub(crate) fn region(rt: &impl Print, name: &str, made: &NewRegion) {
    let told = Told(made.refusal);
    let counts = [
        made.shape.outer.count,
        made.shape.holes,
        made.shape.counts[0],
        made.shape.counts[1],
    ];
    let wholes = Wholes(&counts);
    let ring = Numbers(&made.shape.outer.points[..8]);
    let holes = Numbers(&made.shape.points[..8]);
    let _ = println!(rt; "{name}: {told}{wholes}{ring}{holes}");
}
