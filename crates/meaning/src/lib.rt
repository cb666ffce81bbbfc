// Why a list is refused, cells and corners, as code and definitions share them. Everything else of this crate is definitions (specs/) and their laws
// (proofs/): there is no engine here.
#![tactic(auto)]

ghost use Rattle.std.specs.Prelude.{◌≡◌};
ghost use Rattle.meaning.specs.Verdicts.{number_of, place_of};

use std::error::Error;
use std::fmt;

// The most vertices that a list may have: `most_vertices` of specs/Lists.antt, for array lengths and tests.
pub const MOST_VERTICES: usize = 1024;

// The most vertices for which working arrays are small ones.
pub const SMALL: usize = 32;

// The numbers of a vertex, and of a cell.
pub const NUMBERS: usize = 3;

// Why a list is no travel map, with the place of the first offending vertex where there is one.
#[derive(Clone, Copy, Debug, PartialEq, Eq)]
pub enum Refusal {
    // The length is not a multiple of three.
    NotTriples,
    // More vertices than a list may have.
    TooMany,
    // The first vertex that has a number outside the corner numbers.
    OutOfRange(usize),
    // The first vertex that does not stand above the one before it.
    NotRising(usize),
    // The first vertex that stands on a line with an odd number of vertices.
    OddLine(usize),
}

impl Refusal {
    // The number that document 01's table gives it.
    pub fn number(self) -> u8
        ensures { result ≡ number_of self }
    {
        match self {
            Refusal::NotTriples => 1,
            Refusal::TooMany => 2,
            Refusal::OutOfRange(_) => 3,
            Refusal::NotRising(_) => 4,
            Refusal::OddLine(_) => 5,
        }
    }

    // The place that it names, or 0.
    pub fn place(self) -> usize
        ensures { result ≡ place_of self }
    {
        match self {
            Refusal::NotTriples | Refusal::TooMany => 0,
            Refusal::OutOfRange(place) | Refusal::NotRising(place) | Refusal::OddLine(place) =>
                place,
        }
    }
}

impl fmt::Display for Refusal {
    fn fmt<W: fmt::Write>(&self, f: &mut fmt::Formatter<W>) -> fmt::Result {
        match self {
            Refusal::NotTriples => write!(f, "the numbers do not come in threes"),
            Refusal::TooMany => write!(f, "more than {MOST_VERTICES} vertices"),
            Refusal::OutOfRange(place) => write!(f, "vertex {place} has a number out of range"),
            Refusal::NotRising(place) => write!(f, "vertex {place} does not rise"),
            Refusal::OddLine(place) => write!(f, "vertex {place} stands on an odd line"),
        }
    }
}

impl Error for Refusal {}

// A cell of codes, the unit cube from code to code + 1 on each axis; or any wish, inside the codes or beyond.
#[derive(Clone, Copy, Debug, PartialEq, Eq)]
pub struct Cell {
    pub focus: i16,
    pub first: i16,
    pub second: i16,
}

// A corner: a number on each axis.
#[derive(Clone, Copy, Debug, PartialEq, Eq)]
pub struct Corner {
    pub focus: i16,
    pub first: i16,
    pub second: i16,
}

// What nearest gives: a cell and how far it is.
#[derive(Clone, Copy, Debug, PartialEq, Eq)]
pub struct Reached {
    pub at: Cell,
    pub far: u32,
}
