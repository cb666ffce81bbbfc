// The check of a list. It relies on `codes` for numbers and keys and on `lines` for odd lines.
#![tactic(auto)]

mod corners;
mod map;

ghost use Rattle.std.specs.Prelude.{◌≡◌, true, ◌+◌, ◌*◌, ◌<◌, length};
ghost use Rattle.meaning.specs.Numbers.{is_number, is_corner};
ghost use Rattle.meaning.specs.Counting.{first};
ghost use Rattle.meaning.specs.Lists.{vertices};
ghost use Rattle.meaning.specs.Verdicts.{outside_at};
ghost use Rattle.codes.specs.Keys.{corner_at};
ghost use Rattle.lists.specs.Check.{Checked, AllNumbers};

use codes::{HIGHEST, LOWEST};
use corners::Corners;
pub use map::TravelMap;
use meaning::{MOST_VERTICES, NUMBERS, Refusal};

// Whether a number is a corner number.
fn is_number(x: i16) -> bool
    ensures { result ≡ is_number x }
{
    let u = codes::lift(x);
    LOWEST <= u && u <= HIGHEST
}

// Whether vertex i is a corner.
fn corner_at(list: &[i16], i: usize) -> bool
    requires { 3 * i + 2 < length list.now }
    ensures { result ≡ is_corner (corner_at list.now i) }
{
    let at = NUMBERS * i;
    is_number(list[at]) && is_number(list[at + 1]) && is_number(list[at + 2])
}

// Whether every number is a corner number. No early end: several are tested at once.
fn all_numbers(list: &[i16]) -> bool
    ensures { result ≡ true → AllNumbers list.now }
{
    let mut good = true;
    for x in list {
        good &= is_number(*x);
    }
    good
}

// The first vertex that is no corner, or the count of vertices.
fn first_outside(list: &[i16]) -> usize
    ensures { result ≡ first (outside_at (vertices list.now)) (length (vertices list.now)) }
{
    let n = list.len() / NUMBERS;
    if all_numbers(list) {
        return n;
    }
    for place in 0..n {
        if !corner_at(list, place) {
            return place;
        }
    }
    n
}

// What document 01 says of a list: that it is a travel map, or why not.
pub fn check(list: &[i16]) -> Result<(), Refusal>
    ensures { Checked list.now result }
{
    let n = list.len() / NUMBERS;
    if list.len() % NUMBERS != 0 {
        return Err(Refusal::NotTriples);
    }
    if MOST_VERTICES < n {
        return Err(Refusal::TooMany);
    }
    let outside = first_outside(list);
    if outside < n {
        return Err(Refusal::OutOfRange(outside));
    }
    let corners = Corners { list };
    let falling = corners.first_falling();
    if falling < n {
        return Err(Refusal::NotRising(falling));
    }
    let odd = corners.first_on_odd_line();
    if odd < n {
        return Err(Refusal::OddLine(odd));
    }
    Ok(())
}
