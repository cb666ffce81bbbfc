// The nearest permitted cells to many wishes of one map: the list is checked, and its keys are read, once. It relies on `lists` for the check, on `keys` for
// the keys of a list and on `nearest` for the least rank of a wish.
#![tactic(auto)]

ghost use Rattle.std.specs.Prelude.{◌≡◌, map, ◌+◌, ◌≤◌, ◌<◌, length};
ghost use Rattle.meaning.specs.Lists.{vertices};
ghost use Rattle.codes.specs.Keys.{of_key};
ghost use Rattle.nearest.specs.Ranks.{Located, Rooms};
ghost use Rattle.wishes.specs.Many.{ManyAnswered};
ghost use Rattle.wishes.specs.Each.{wish_from, NearestPut, Wishable, EachPut};
ghost use Rattle.wishes.specs.declared.WishError.TheVariants.{Refused};

use lists::TravelMap;
use meaning::{Cell, MOST_VERTICES, NUMBERS, Refusal, SMALL};
use nearest::Extents;

// Why many wishes are not answered.
#[derive(Clone, Copy, Debug, PartialEq, Eq)]
pub enum WishError {
    // The list is not valid, and why.
    Refused(Refusal),
    // The wishes do not come in threes.
    NotWishes,
    // The list is empty: there is no cell.
    Empty,
    // The cells do not fit.
    NoRoom,
}

impl From<Refusal> for WishError {
    ghost from_gives = { λ r e. e ≡ Refused r };

    fn from(refusal: Refusal) -> WishError {
        WishError::Refused(refusal)
    }
}

// The wish of three numbers.
fn wish_of(numbers: &[i16]) -> Cell
    requires { length numbers.now ≡ 3 }
    ensures { result ≡ wish_from numbers.now 0 }
{
    Cell {
        focus: numbers[0],
        first: numbers[1],
        second: numbers[2],
    }
}

// Writes the three codes of the cell nearest to a wish to cells, from place at on; room and work are to work in.
fn put_nearest(
    keys: &[u32],
    extents: Extents,
    wish: Cell,
    room: &mut [u32],
    work: &mut [u32],
    at: usize,
    cells: &mut [i16],
)
    requires located { Located keys.now extents }
    requires keys_in_bounds { (length keys.now ≤ length room.old) × (length keys.now ≤ length work.old) }
    requires at_in_bounds { at + 2 < length cells.old }
    ensures { NearestPut (map of_key keys.now) wish at cells.old cells.new }
{
    let rank = nearest::rank_of_wish(keys, extents, wish, room, work);
    let cell = nearest::cell_of(rank);
    cells[at] = cell.focus;
    cells[at + 1] = cell.first;
    cells[at + 2] = cell.second;
}

// Writes the cells nearest to the wishes of a map to the front of cells; the slices between are room to work in.
fn each_with_room(
    map: TravelMap,
    wishes: &[i16],
    keys: &mut [u32],
    room: &mut [u32],
    work: &mut [u32],
    cells: &mut [i16],
)
    requires wishable { Wishable map.list.now wishes.now cells.old }
    requires rooms { Rooms (length (vertices map.list.now)) keys.old room.old work.old }
    ensures { EachPut map.entry.list.now wishes.now cells.old cells.new }
{
    let n = keys::read(map.list, keys);
    let front = &keys[..n];
    let extents = nearest::extents_of(front);

    // Cells by their place: what is written through `chunks_exact_mut` is not known behind the loop.
    for (i, numbers) in wishes.chunks_exact(NUMBERS).enumerate() {
        let wish = wish_of(numbers);
        put_nearest(front, extents, wish, room, work, NUMBERS * i, cells);
    }
}

// The same with room of its own for ROOM vertices.
fn each_in_room<const ROOM: usize>(map: TravelMap, wishes: &[i16], cells: &mut [i16])
    requires wishable { Wishable map.list.now wishes.now cells.old }
    requires list_len_bound { length (vertices map.list.now) ≤ ROOM }
    requires room_bound { ROOM ≤ 1024 }
    ensures { EachPut map.entry.list.now wishes.now cells.old cells.new }
{
    let mut keys = [0u32; ROOM];
    let mut room = [0u32; ROOM];
    let mut work = [0u32; ROOM];
    each_with_room(map, wishes, &mut keys, &mut room, &mut work, cells);
}

// Inner: the same of a map that is not empty, for a caller that has checked its list.
pub fn each_of_map(map: TravelMap, wishes: &[i16], cells: &mut [i16])
    requires { Wishable map.list.now wishes.now cells.old }
    ensures { EachPut map.entry.list.now wishes.now cells.old cells.new }
{
    if map.list.len() <= NUMBERS * SMALL {
        each_in_room::<SMALL>(map, wishes, cells);
    } else {
        each_in_room::<MOST_VERTICES>(map, wishes, cells);
    }
}

// The permitted cells nearest to the wishes, one for each, at the front of cells: each is the cell that `nearest` gives. The list is checked once.
pub fn nearest_each(list: &[i16], wishes: &[i16], cells: &mut [i16]) -> Result<(), WishError>
    ensures { ManyAnswered list.now wishes.now cells.old result cells.new }
{
    let map = TravelMap::of(list)?;
    if wishes.len() % NUMBERS != 0 {
        return Err(WishError::NotWishes);
    }
    if list.is_empty() {
        return Err(WishError::Empty);
    }
    if cells.len() < wishes.len() {
        return Err(WishError::NoRoom);
    }
    each_of_map(map, wishes, cells);
    Ok(())
}
