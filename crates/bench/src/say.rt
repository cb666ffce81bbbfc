// How lists are written: numbers with a space before each, and what is made.
use std::fmt;
use std::fmt::Display;

// A list of numbers.
#[derive(Clone, Copy)]
pub struct Spaced<'a>(pub &'a [i16]);

impl<'a> Display for Spaced<'a> {
    fn fmt<W: fmt::Write>(&self, f: &mut fmt::Formatter<W>) -> fmt::Result {
        for number in self.0 {
            write!(f, " {number}")?;
        }
        Ok(())
    }
}

// A list that is made: how many members it has, and their numbers.
#[derive(Clone, Copy)]
pub struct Made<'a> {
    count: u64,
    numbers: Spaced<'a>,
}

impl<'a> Made<'a> {
    // The list of so many members and numbers at the front of a result; no numbers where the result is too short for them.
    pub fn of(count: u64, numbers: u64, res: &'a [i16]) -> Made<'a> {
        let end = numbers as usize;
        let front = if end <= res.len() { &res[..end] } else { &[] };
        Made {
            count,
            numbers: Spaced(front),
        }
    }
}

impl<'a> Display for Made<'a> {
    fn fmt<W: fmt::Write>(&self, f: &mut fmt::Formatter<W>) -> fmt::Result {
        let count = self.count;
        let numbers = self.numbers;
        write!(f, "{count}:{numbers}")
    }
}
