// The lines that the program writes: answers to wishes, and refusals. Inner: what the program builds on.
#![tactic(auto)]

ghost use Rattle.std.specs.Prelude.{◌≡◌, ◌+◌, ◌*◌, ◌/◌, ◌<◌, ◌≤◌, length};
ghost use Rattle.std.proofs.Math.Seq.{paste};
ghost use Rattle.meaning.specs.Lists.{vertices};
ghost use Rattle.frames.specs.Frames.{four_digits};
ghost use Rattle.answers.specs.Answers.{refusal_bytes, answer_bytes, refusal_line, cell_line, empty_line};
ghost use Rattle.answers.specs.Answers.{wish_at, AnswerLine, Filled, Written};

use frames::{DIGITS, LINE_END, ZERO};
use lists::TravelMap;
use meaning::{Cell, NUMBERS};

// The second digits of the tags 05, an answer, and 06, a refusal.
const ANSWER_TAG: u8 = b'5';

const REFUSAL_TAG: u8 = b'6';

// The second digit of refusal 7, nearest asked of the empty list.
const SEVEN: u8 = b'7';

// What the second, third and fourth digit from the right count.
const SECOND: usize = 16;

const THIRD: usize = 256;

const FOURTH: usize = 4096;

// The bytes of an 05 line and of an 06 line.
pub const ANSWER_LINE: usize = 17;

pub const REFUSAL_LINE: usize = 9;

// The four digits of a number.
fn four_digits(n: usize) -> [u8; DIGITS]
    ensures { result ≡ four_digits n }
{
    // One by one: a closure over a list of units does not know that none of them is 0.
    [
        frames::hex(n / FOURTH),
        frames::hex(n / THIRD),
        frames::hex(n / SECOND),
        frames::hex(n),
    ]
}

// The 06 line of a refusal.
fn refusal_line(number: usize, place: usize) -> [u8; REFUSAL_LINE]
    ensures { result ≡ refusal_line number place }
{
    let a = frames::hex(number / SECOND);
    let b = frames::hex(number);
    let p = four_digits(place);
    [ZERO, REFUSAL_TAG, a, b, p[0], p[1], p[2], p[3], LINE_END]
}

// The 05 line of a cell.
fn cell_line(cell: Cell) -> [u8; ANSWER_LINE]
    ensures { result ≡ cell_line cell }
{
    let x = four_digits(words::word(cell.focus) as usize);
    let y = four_digits(words::word(cell.first) as usize);
    let z = four_digits(words::word(cell.second) as usize);
    [
        ZERO, ANSWER_TAG, ZERO, ZERO, x[0], x[1], x[2], x[3], y[0], y[1], y[2], y[3], z[0], z[1],
        z[2], z[3], LINE_END,
    ]
}

// The 05 line that every wish gets from the empty map.
fn empty_line() -> [u8; ANSWER_LINE]
    ensures { result ≡ empty_line }
{
    [
        ZERO, ANSWER_TAG, ZERO, SEVEN, ZERO, ZERO, ZERO, ZERO, ZERO, ZERO, ZERO, ZERO, ZERO, ZERO,
        ZERO, ZERO, LINE_END,
    ]
}

// Writes the 06 line of a refusal; answers how many bytes it has.
pub fn refuse(number: usize, place: usize, out: &mut [u8]) -> usize
    requires { refusal_bytes ≤ length out.old }
    ensures { Filled (refusal_line number place) out.old result out.new }
{
    out[..REFUSAL_LINE].copy_from_slice(&refusal_line(number, place));
    REFUSAL_LINE
}

// The 05 line of a wish, three numbers.
#[tactic(auto, using(codes::proofs::Laws::read_back, crate::proofs::Lines::answer_at))]
fn answer(map: TravelMap, wish: &[i16]) -> [u8; ANSWER_LINE]
    requires { length wish.now ≡ 3 }
    ensures { AnswerLine (vertices map.entry.list.now) (wish_at wish.now 0) result }
{
    let wish = Cell {
        focus: wish[0],
        first: wish[1],
        second: wish[2],
    };
    match nearest::nearest_of_map(map, wish) {
        Some(reached) => cell_line(reached.at),
        None => empty_line(),
    }
}

// Writes an 05 line for each wish, in order; answers how many bytes they have.
pub fn answer_all(map: TravelMap, wishes: &[i16], out: &mut [u8]) -> usize
    requires { answer_bytes * (length wishes.now / 3) ≤ length out.old }
    ensures value { result ≡ answer_bytes * (length wishes.now / 3) }
    ensures written { Written (vertices map.entry.list.now)
        wishes.now (length wishes.now / 3)
        out.old out.new }
{
    for (i, wish) in wishes.chunks_exact(NUMBERS).enumerate() {
        // By its range: what is written through `chunks_exact_mut` is not known to a proof.
        let at = ANSWER_LINE * i;
        out[at..at + ANSWER_LINE].copy_from_slice(&answer(map, wish));
    }
    ANSWER_LINE * (wishes.len() / NUMBERS)
}
