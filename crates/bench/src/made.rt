// One line for each list that is made: the example's number, what is asked, the answer's number, and each count with its list.
use crate::fields::{NUMBER, OTHERS, WORD};
use crate::say::{Made, Spaced};
use std::fmt;
use std::fmt::Display;

// How many numbers a vertex and a pair have.
const VERTEX: u64 = 3;

const PAIR: u64 = 2;

// The operations that the examples ask for.
#[derive(Clone, Copy)]
pub enum Operation {
    Union,
    Overlap,
    Exclusive,
}

impl Operation {
    // Its number, as include/travelmap.h has it.
    fn number(self) -> u32 {
        match self {
            Operation::Union => 1,
            Operation::Overlap => 2,
            Operation::Exclusive => 4,
        }
    }
}

impl Display for Operation {
    fn fmt<W: fmt::Write>(&self, f: &mut fmt::Formatter<W>) -> fmt::Result {
        f.write_str(match self {
            Operation::Union => "union",
            Operation::Overlap => "overlap",
            Operation::Exclusive => "exclusive",
        })
    }
}

// The box with these ends: the number, the count, and the result.
pub fn box_line(rt: &impl Print, example: &str, ends: [[i16; 2]; 3], out: &mut [i16]) {
    let answer = travelmap::travelmap_box(
        ends[0][0], ends[0][1], ends[1][0], ends[1][1], ends[2][0], ends[2][1], out,
    );
    let number = answer >> NUMBER;
    let count = answer & WORD;
    let list = Spaced(out);
    let _ = println!(rt; "{example} box {number} {count}:{list}");
}

// The join of two maps by an operation: the number, the count, and the list.
pub fn join_line(
    rt: &impl Print,
    example: &str,
    operation: Operation,
    a: &[i16],
    b: &[i16],
    out: &mut [i16],
) {
    let answer = travelmap::travelmap_join(operation.number(), a, b, out);
    let number = answer >> NUMBER;
    let count = answer & WORD;
    let list = Made::of(count, VERTEX * count, out);
    let _ = println!(rt; "{example} {operation} {number} {list}");
}

// The section at a code of an axis: the number, the count, and the pairs.
pub fn section_line(
    rt: &impl Print,
    example: &str,
    list: &[i16],
    axis: u32,
    code: i16,
    out: &mut [i16],
) {
    let answer = travelmap::travelmap_section(list, axis, code, out);
    let number = answer >> NUMBER;
    let count = answer & WORD;
    let pairs = Made::of(count, PAIR * count, out);
    let _ = println!(rt; "{example} section {axis} {code}: {number} {pairs}");
}

// The split at a number of an axis: the number, and for each half the count and the list.
pub fn split_line(
    rt: &impl Print,
    example: &str,
    list: &[i16],
    axis: u32,
    at: i16,
    low: &mut [i16],
    high: &mut [i16],
) {
    let answer = travelmap::travelmap_split(list, axis, at, low, high);
    let number = answer >> NUMBER;
    let below = answer & WORD;
    let others = (answer >> OTHERS) & WORD;
    let lower = Made::of(below, VERTEX * below, low);
    let upper = Made::of(others, VERTEX * others, high);
    let _ = println!(rt; "{example} split {axis} {at}: {number} low {lower} high {upper}");
}
