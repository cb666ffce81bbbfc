// The reader of map text and of wishes: frames at the places where they are due, checked in document 01's order. Inner: what the program
// builds on. A line that is well formed has a known length, so each line's place follows from its number.
#![tactic(auto)]

ghost use Rattle.std.specs.Prelude.{◌≡◌, ◌*◌, ◌≤◌, List, ℤ, length, take};
ghost use Rattle.meaning.specs.Counting.{first};
ghost use Rattle.reading.specs.Reading.{ill_at, numbers_from, closing_sum, counted, map_text, wish_text};
ghost use Rattle.reading.specs.Read.{refused_number, refused_place, meant, AtMost};

use meaning::{MOST_VERTICES, NUMBERS, Refusal};

// The tags' second digits: a count, a vertex, a closing sum, a wish.
const COUNT_TAG: u8 = b'1';

const VERTEX_TAG: u8 = b'2';

const SUM_TAG: u8 = b'3';

const WISH_TAG: u8 = b'4';

// The bytes of a line with one number, and of one with three.
pub const SHORT_LINE: usize = 7;

pub const LONG_LINE: usize = 15;

// The most wishes.
pub const MOST_WISHES: usize = 256;

// The most numbers of a map.
pub const MAP_NUMBERS: usize = NUMBERS * MOST_VERTICES;

// The most numbers of wishes.
pub const WISH_NUMBERS: usize = NUMBERS * MOST_WISHES;

// The line of the first vertex; how far behind the count of vertices the closing line's number lies, and the first wish's.
const VERTEX_LINE: usize = 2;

const CLOSING_LINE: usize = 2;

const WISH_LINE: usize = 3;

// The line of the count.
const COUNT_LINE: usize = 1;

// Why a text is refused.
#[derive(Clone, Copy, Debug, PartialEq, Eq)]
pub enum Refused {
    // The list of its numbers is no travel map.
    List(Refusal),
    // The line, from 1, that is ill formed.
    IllFormed(usize),
    // The closing sum is wrong.
    WrongSum,
}

impl From<Refusal> for Refused {
    ghost use Rattle.reading.specs.declared.Refused.{Refused};

    ghost from_gives = { λ why refused. refused ≡ Refused.List why };

    fn from(refusal: Refusal) -> Refused {
        Refused::List(refusal)
    }
}

impl Refused {
    // Document 01's number of it.
    pub fn number(self) -> usize
        ensures { result ≡ refused_number self }
    {
        match self {
            Refused::List(why) => usize::from(why.number()),
            Refused::IllFormed(_) => 10,
            Refused::WrongSum => 11,
        }
    }

    // The place that goes with it: a vertex, a line, or 0 where there is none to name.
    pub fn place(self) -> usize
        ensures { result ≡ refused_place self }
    {
        match self {
            Refused::List(why) => why.place(),
            Refused::IllFormed(line) => line,
            Refused::WrongSum => 0,
        }
    }
}

// Reads n frames of three numbers from a place on into the list; answers the first that is ill formed, or n.
fn frames_from(s: &[u8], tag: u8, start: usize, n: usize, list: &mut [i16]) -> usize
    requires start_bound { (start ≤ 65536) × (n ≤ 1024) }
    requires n_in_bounds { 3 * n ≤ length list.old }
    ensures value { result ≡ first (ill_at s.now tag start) n }
    ensures list_after { take (3 * result) list.new ≡ numbers_from s.now tag start result }
{
    for i in 0..n {
        let Some((a, b, c)) = frames::numbers_at(s, tag, start + LONG_LINE * i) else {
            return i;
        };
        // By ranges: what the list holds behind `chunks_exact_mut` is not known to a proof.
        list[NUMBERS * i..NUMBERS * (i + 1)].copy_from_slice(&[
            words::signed(a),
            words::signed(b),
            words::signed(c),
        ]);
    }
    n
}

// The sum of a count and all numbers of a list modulo 65,536.
fn closing_sum(n: u16, list: &[i16]) -> u16
    ensures { result ≡ closing_sum n list.now }
{
    list.iter()
        .fold(n, |sum, x| sum.wrapping_add(words::word(*x)))
}

// Reads the lines of as many vertices as are counted and the closing line into the list.
#[tactic(auto, unfolding(meaning::specs::Lists::most_vertices), using(crate::proofs::Order::count_ill_vertex, crate::proofs::Order::count_ill_sum, crate::proofs::Order::sum_wrong, crate::proofs::Runs::all_read))]
fn read_counted(s: &[u8], count: u16, list: &mut [i16]) -> Result<usize, Refused>
    requires count_bound { count ≤ 1024 }
    requires count_in_bounds { 3 * count ≤ length list.old }
    ensures list_after { meant result list.new ≡ counted s.now (Some count) }
    ensures at_most { AtMost 1024 result }
{
    let n = usize::from(count);
    let ill = frames_from(s, VERTEX_TAG, SHORT_LINE, n, list);
    if ill < n {
        return Err(Refused::IllFormed(VERTEX_LINE + ill));
    }
    let at = SHORT_LINE + LONG_LINE * n;
    let sum = frames::number_at(s, SUM_TAG, at).ok_or(Refused::IllFormed(n + CLOSING_LINE))?;
    let numbers = &list[..NUMBERS * n];
    if sum != closing_sum(count, numbers) {
        return Err(Refused::WrongSum);
    }
    lists::check(numbers)?;
    Ok(n)
}

// Reads the text of a map, up to its closing line, into the list.
#[tactic(auto, unfolding(crate::specs::Reading::map_text, meaning::specs::Lists::most_vertices))]
pub fn read_map(s: &[u8], list: &mut [i16]) -> Result<usize, Refused>
    requires { 3072 ≤ length list.old }
    ensures list_after { meant result list.new ≡ map_text s.now }
    ensures at_most { AtMost 1024 result }
{
    let count = frames::number_at(s, COUNT_TAG, 0).ok_or(Refused::IllFormed(COUNT_LINE))?;
    if MOST_VERTICES < usize::from(count) {
        return Err(Refused::List(Refusal::TooMany));
    }
    read_counted(s, count, list)
}

// Reads the wishes behind a map of n vertices into the list.
pub fn read_wishes(s: &[u8], n: usize, list: &mut [i16]) -> Result<usize, Refused>
    requires n_bound { n ≤ 1024 }
    requires in_bounds { 768 ≤ length list.old }
    ensures list_after { meant result list.new ≡ wish_text s.now n }
    ensures at_most { AtMost 256 result }
{
    let start = SHORT_LINE + LONG_LINE * n + SHORT_LINE;
    let due = s.len().saturating_sub(start).div_ceil(LONG_LINE);
    let ill = frames_from(s, WISH_TAG, start, due.min(MOST_WISHES), list);
    if ill < due {
        return Err(Refused::IllFormed(n + WISH_LINE + ill));
    }
    Ok(due)
}
