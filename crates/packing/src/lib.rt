// Inner: the answers of the library's functions, each packed into one number with document 01's values. It relies on the crates of the answers for
// their types, and on `words` for signed numbers.
#![tactic(auto)]

ghost use Rattle.std.specs.Prelude.{◌≡◌, ◌*◌, ◌≤◌, Err};
ghost use Rattle.meaning.specs.Lists.{most_vertices};
ghost use Rattle.meaning.specs.Verdicts.{place_of, refusal_place};
ghost use Rattle.meaning.specs.Outcomes.{refused, empty_map, verdict_values};
ghost use Rattle.boxes.specs.Box.{box_values};
ghost use Rattle.asks.specs.Asks.{cell_values, cell_says, corner_says};
ghost use Rattle.joins.specs.Join.{join_values};
ghost use Rattle.cuts.specs.Answers.{section_values, split_values};
ghost use Rattle.nearest.specs.Answer.{found_values, found_says};
ghost use Rattle.wishes.specs.Many.{many_values};
ghost use Rattle.packing.specs.Packed.{Few, packed, packed_values, packed_cell, packed_codes, packed_corner, packed_part};
ghost use Rattle.packing.specs.Packed.{packed_nearest, packed_distance};

use asks::{Ends, Report};
use boxes::BoxError;
use cuts::{Halves, SectionError, SplitError};
use joins::JoinError;
use meaning::{Cell, Reached, Refusal};
use nearest::NearestError;
use wishes::WishError;

// Where each value of an answer begins in the packed number.
const NUMBER: u64 = 1 << 56;

const OPERAND: u64 = 1 << 48;

const PLACE: u64 = 1 << 32;

const SECOND: u64 = 1 << 16;

// Where how many cells are permitted begins in the corner report.
const HOW_MANY: u16 = 1 << 8;

// The numbers of answers (document 01, "Why a call comes back") that are packed here: C reads them as numbers.
const DONE: u8 = 0;

const NO_ROOM: u8 = 6;

const EMPTY: u8 = 7;

const BAD_OPERATION: u8 = 8;

const BAD_NUMBER: u8 = 9;

// The operand that a refusal names: the first list, which is the one list where there is one, or the second.
const ONE_LIST: u8 = 1;

const SECOND_LIST: u8 = 2;

// The operand that a split without room names: the half that does not fit.
const LOWER_HALF: u8 = 1;

const UPPER_HALF: u8 = 2;

// The vertices of a box.
const BOX_VERTICES: u16 = 8;

// The values of an answer as one number.
fn pack(number: u8, operand: u8, place: u16, second: u16, count: u16) -> u64
    ensures { result ≡ packed number operand place second count }
{
    number as u64 * NUMBER
        + operand as u64 * OPERAND
        + place as u64 * PLACE
        + second as u64 * SECOND
        + count as u64
}

// The refusal of the list that is this operand.
fn pack_refusal(refusal: Refusal, operand: u8) -> u64
    requires { place_of refusal ≤ most_vertices }
    ensures { result ≡ packed_values (refused operand (Err refusal)) }
{
    pack(refusal.number(), operand, refusal.place() as u16, 0, 0)
}

// The verdict on the one list.
pub fn pack_verdict(verdict: Result<(), Refusal>) -> u64
    requires { refusal_place verdict ≤ most_vertices }
    ensures { result ≡ packed_values (verdict_values verdict) }
{
    match verdict {
        Ok(()) => pack(DONE, 0, 0, 0, 0),
        Err(refusal) => pack_refusal(refusal, ONE_LIST),
    }
}

// The answer of the cell query.
pub fn pack_cell(answer: Result<bool, Refusal>) -> u64
    requires { Few (cell_values answer) }
    ensures { result ≡ packed_cell (cell_says answer) }
{
    match answer {
        Ok(yes) => u64::from(yes),
        Err(refusal) => pack_refusal(refusal, ONE_LIST),
    }
}

// The corner report.
pub fn pack_corner(answer: Result<Report, Refusal>) -> u64
    requires few { Few (corner_says answer).values }
    requires eight { (corner_says answer).given.how_many ≤ 8 }
    ensures { result ≡ packed_corner (corner_says answer) }
{
    match answer {
        Ok(report) => {
            let cells = report.how_many as u16 * HOW_MANY + report.mask as u16;
            pack(DONE, 0, 0, report.kind as u16, cells)
        }
        Err(why) => pack_refusal(why, ONE_LIST),
    }
}

// The part of the plane query.
pub fn pack_part(ends: Ends) -> u64
    requires { (ends.start ≤ ends.end) × (ends.end ≤ 3 * most_vertices) }
    ensures { result ≡ packed_part ends }
{
    let start = ends.start;
    let end = ends.end;
    if start == end {
        return 0;
    }
    start as u64 * PLACE + (end - start) as u64
}

// The answer of making a box.
pub fn pack_box(answer: Result<(), BoxError>) -> u64
    ensures { result ≡ packed_values (box_values answer) }
{
    match answer {
        Ok(()) => pack(DONE, 0, 0, 0, BOX_VERTICES),
        Err(BoxError::BadEnds) => pack(BAD_NUMBER, 0, 0, 0, 0),
        Err(BoxError::NoRoom) => pack(NO_ROOM, 0, 0, 0, 0),
    }
}

// The answer of a join.
pub fn pack_join(answer: Result<usize, JoinError>) -> u64
    requires { Few (join_values answer) }
    ensures { result ≡ packed_values (join_values answer) }
{
    match answer {
        Ok(count) => pack(DONE, 0, 0, 0, count as u16),
        Err(JoinError::BadOperation) => pack(BAD_OPERATION, 0, 0, 0, 0),
        Err(JoinError::FirstRefused(refusal)) => pack_refusal(refusal, ONE_LIST),
        Err(JoinError::SecondRefused(refusal)) => pack_refusal(refusal, SECOND_LIST),
        Err(JoinError::NoRoom) => pack(NO_ROOM, 0, 0, 0, 0),
    }
}

// The answer of a section.
pub fn pack_section(answer: Result<usize, SectionError>) -> u64
    requires { Few (section_values answer) }
    ensures { result ≡ packed_values (section_values answer) }
{
    match answer {
        Ok(pairs) => pack(DONE, 0, 0, 0, pairs as u16),
        Err(SectionError::BadRequest) => pack(BAD_NUMBER, 0, 0, 0, 0),
        Err(SectionError::Refused(refusal)) => pack_refusal(refusal, ONE_LIST),
        Err(SectionError::NoRoom) => pack(NO_ROOM, 0, 0, 0, 0),
    }
}

// The answer of a split.
pub fn pack_split(answer: Result<Halves, SplitError>) -> u64
    requires { Few (split_values answer) }
    ensures { result ≡ packed_values (split_values answer) }
{
    match answer {
        Ok(Halves { lower, upper }) => pack(DONE, 0, 0, upper as u16, lower as u16),
        Err(SplitError::BadRequest) => pack(BAD_NUMBER, 0, 0, 0, 0),
        Err(SplitError::Refused(refusal)) => pack_refusal(refusal, ONE_LIST),
        Err(SplitError::LowNoRoom) => pack(NO_ROOM, LOWER_HALF, 0, 0, 0),
        Err(SplitError::HighNoRoom) => pack(NO_ROOM, UPPER_HALF, 0, 0, 0),
    }
}

// The refusal of nearest, and of many wishes, for the empty list.
fn pack_empty() -> u64
    ensures { result ≡ packed_values empty_map }
{
    pack(EMPTY, 0, 0, 0, 0)
}

// Why there is no nearest cell.
fn pack_nearest_error(error: NearestError) -> u64
    requires { Few (found_values (Err error)) }
    ensures { result ≡ packed_values (found_values (Err error)) }
{
    match error {
        NearestError::Empty => pack_empty(),
        NearestError::Refused(refusal) => pack_refusal(refusal, ONE_LIST),
    }
}

// The three codes of a cell.
fn pack_codes(cell: Cell) -> u64
    ensures { result ≡ packed_codes cell }
{
    let x = words::word(cell.focus);
    let y = words::word(cell.first);
    let z = words::word(cell.second);
    pack(DONE, 0, x, y, z)
}

// The nearest cell: its three codes, or why there is none.
pub fn pack_nearest(found: Result<Reached, NearestError>) -> u64
    requires { Few (found_values found) }
    ensures { result ≡ packed_nearest (found_says found) }
{
    match found {
        Ok(reached) => pack_codes(reached.at),
        Err(error) => pack_nearest_error(error),
    }
}

// The distance to the nearest cell.
pub fn pack_distance(found: Result<Reached, NearestError>) -> u64
    requires { Few (found_values found) }
    ensures { result ≡ packed_distance (found_says found) }
{
    match found {
        Ok(reached) => reached.far as u64,
        Err(error) => pack_nearest_error(error),
    }
}

// The answer of many wishes.
pub fn pack_wished(answer: Result<(), WishError>) -> u64
    requires { Few (many_values answer) }
    ensures { result ≡ packed_values (many_values answer) }
{
    match answer {
        Ok(()) => pack(DONE, 0, 0, 0, 0),
        Err(WishError::Refused(refusal)) => pack_refusal(refusal, ONE_LIST),
        Err(WishError::NotWishes) => pack_refusal(Refusal::NotTriples, SECOND_LIST),
        Err(WishError::Empty) => pack_empty(),
        Err(WishError::NoRoom) => pack(NO_ROOM, 0, 0, 0, 0),
    }
}
