// What the program answers to its input: the text form of a map and of wishes, read and answered. It relies on crate `reading` for the checks in
// their order, and on crate `answers` for the lines that are written.
#![tactic(auto)]

ghost use Rattle.std.specs.Prelude.{◌≡◌, ◌≤◌, length};
ghost use Rattle.reading.specs.Reading.{whole};
ghost use Rattle.text.specs.Program.{with_map, Put, Responds};

use answers::ANSWER_LINE;
use lists::TravelMap;
use meaning::{MOST_VERTICES, NUMBERS};
use reading::{LONG_LINE, MAP_NUMBERS, MOST_WISHES, SHORT_LINE, WISH_NUMBERS};

// The most bytes of input: the lines of a full map and of the most wishes.
pub const MOST_BYTES: usize = 2 * SHORT_LINE + LONG_LINE * (MOST_VERTICES + MOST_WISHES);

// The most bytes that are written: an answer to each of the most wishes.
pub const MOST_WRITTEN: usize = ANSWER_LINE * MOST_WISHES;

// The number of the refusal of input that is too long: one case, with no place, needs no type.
const TOO_LONG: usize = 12;

// Writes the answers to the wishes behind a map, or the refusal of their text; answers how many bytes are written.
#[tactic(auto, using(crate::proofs::Outcomes::wishes_refused))]
fn answer_wishes(input: &[u8], map: TravelMap, out: &mut [u8]) -> usize
    requires { 4352 ≤ length out.old }
    ensures { Put (with_map input.now (whole map.entry.list.now)) out.old result out.new }
{
    let mut wishes = [0i16; WISH_NUMBERS];
    match reading::read_wishes(input, map.list.len() / NUMBERS, &mut wishes) {
        Ok(count) => answers::answer_all(map, &wishes[..NUMBERS * count], out),
        Err(refused) => answers::refuse(refused.number(), refused.place(), out),
    }
}

// Writes what the program answers to an input to the front of out; answers how many bytes that is.
#[tactic(auto, using(crate::proofs::Outcomes::bytes_refused, crate::proofs::Outcomes::map_refused))]
pub fn respond(input: &[u8], out: &mut [u8; MOST_WRITTEN]) -> usize
    ensures { Responds input.now out.old result out.new }
{
    if MOST_BYTES < input.len() {
        return answers::refuse(TOO_LONG, 0, out);
    }
    let mut list = [0i16; MAP_NUMBERS];
    match reading::read_map(input, &mut list) {
        Ok(n) => {
            let list = &list[..NUMBERS * n];
            answer_wishes(input, TravelMap { list }, out)
        }
        Err(refused) => answers::refuse(refused.number(), refused.place(), out),
    }
}
