// The cases of each function.
use crate::shown;
use crate::shown::{Numbers, Told};
use outline::{Outline, store};

// A square of side 10, a hole in it, and one that leaves it.
const SQUARE: [f64; 8] = [0.0, 0.0, 10.0, 0.0, 10.0, 10.0, 0.0, 10.0];

const HOLE: [f64; 8] = [4.0, 4.0, 6.0, 4.0, 6.0, 6.0, 4.0, 6.0];

const LEAVING: [f64; 6] = [4.0, 4.0, 14.0, 4.0, 4.0, 6.0];

// The square, with this number as its second east, said to have so many vertices.
pub(crate) fn square(n: usize, x: f64) -> Outline {
    let mut shape = store::stored_outline(&SQUARE, 4, false);
    shape.points[2] = x;
    shape.count = n;
    shape
}

// The square's first n vertices, to lent output.
fn write(rt: &impl Print, name: &str, n: usize, out: &mut [f64]) {
    let told = Told(outline_lent::write_outline(&SQUARE, n, out));
    let numbers = Numbers(out);
    let _ = println!(rt; "{name}: {told}{numbers}");
}

// Output of nine, eight and seven numbers, each 7 before.
pub(crate) fn writes(rt: &impl Print) {
    write(rt, "write to 9", 4, &mut [7.0; 9]);
    write(rt, "write to 8", 4, &mut [7.0; 8]);
    write(rt, "write to 7", 4, &mut [7.0; 7]);
    write(rt, "write of 3 to 9", 3, &mut [7.0; 9]);
    write(rt, "write of 2 to 9", 2, &mut [7.0; 9]);
    write(rt, "write of 5 to 9", 5, &mut [7.0; 9]);
    write(rt, "write of 129 to 9", 129, &mut [7.0; 9])
}

fn alone(rt: &impl Print, name: &str, n: usize, x: f64) {
    shown::region(rt, name, &region_new::without_holes(square(n, x)));
}

pub(crate) fn single(rt: &impl Print) {
    alone(rt, "without_holes", 4, 10.0);
    alone(rt, "without_holes of 2", 2, 10.0);
    alone(rt, "without_holes of 129", 129, 10.0);
    alone(rt, "without_holes beyond", 4, 2000000000.0);
}

// Flat numbers, hole k from 64 k on: the first two have these.
fn flat(hole: &[f64]) -> [f64; 576] {
    let mut hs = [0.0; 576];
    outline_lent::write_numbers(hole, hole.len(), &mut hs);
    outline_lent::write_numbers(hole, hole.len(), &mut hs[64..]);
    hs
}

fn with_holes(rt: &impl Print, name: &str, n: usize, hole: &[f64], cs: &[usize]) {
    let made = region_new::region_given(square(n, 10.0), &flat(hole), cs);
    shown::region(rt, name, &made);
}

// Numbers for one hole only.
fn with_few(rt: &impl Print, name: &str, cs: &[usize]) {
    let made = region_new::region_given(square(4, 10.0), &HOLE, cs);
    shown::region(rt, name, &made);
}

pub(crate) fn given(rt: &impl Print) {
    with_holes(rt, "region_given", 4, &HOLE, &[4]);
    with_holes(rt, "region_given, no hole", 4, &HOLE, &[]);
    with_holes(rt, "region_given, outside", 4, &LEAVING, &[3]);
    with_holes(rt, "region_given, two alike", 4, &HOLE, &[4, 4]);
    with_holes(rt, "region_given, outer of 2", 2, &HOLE, &[4]);
    with_holes(rt, "region_given, hole of 33", 4, &HOLE, &[33]);
    with_holes(rt, "region_given, nine holes", 4, &HOLE, &[4; 9]);
    with_few(rt, "region_given, few numbers", &[4, 4]);
}

fn outer_of(rt: &impl Print, name: &str, n: usize, cs: &[usize], h: usize) {
    let ring = square(n, 10.0).points;
    let made = region_ask::outer(&ring, n, &flat(&HOLE), cs, h);
    shown::outline(rt, name, &made);
}

fn hole_of(rt: &impl Print, name: &str, cs: &[usize], h: usize, k: usize) {
    let ring = square(4, 10.0).points;
    let made = region_ask::hole(&ring, 4, &flat(&HOLE), cs, h, k);
    shown::outline(rt, name, &made);
}

pub(crate) fn read(rt: &impl Print) {
    outer_of(rt, "outer", 4, &[4], 1);
    outer_of(rt, "outer of 2", 2, &[4], 1);
    outer_of(rt, "outer, nine holes", 4, &[4; 9], 9);
    hole_of(rt, "hole 0", &[4], 1, 0);
    hole_of(rt, "hole 1", &[4, 3], 2, 1);
    hole_of(rt, "hole past the last", &[4], 1, 1);
    hole_of(rt, "hole of 2", &[2], 1, 0);
}
