// The nearest permitted cell to a wish (document 01, demand 3). It relies on `lists` for the check, on `keys` for the keys of a list and on
// `search` for the least rank among the cells that they permit.
#![tactic(auto)]

ghost use Rattle.std.specs.Prelude.{◌≡◌, map, ◌<◌, ◌≤◌, ◌^◌, length, ok_or};
ghost use Rattle.meaning.specs.Lists.{vertices};
ghost use Rattle.codes.specs.Keys.{of_key};
ghost use Rattle.nearest.specs.Answer.{Answered};
ghost use Rattle.nearest.specs.Ranks.{LeastRank, RankedFor, code_at, cell_of, found_at, Wished, Keyed, Located, Rooms};
ghost use Rattle.nearest.specs.declared.NearestError.TheVariants.{Refused};

use lists::TravelMap;
use meaning::{Cell, MOST_VERTICES, NUMBERS, Reached, Refusal, SMALL};
use ranks::{DISTANCE, END, Extent};

// What one code of focus counts as distance, and one of either shift: `weight` of the distance's definition.
const FOCUS_WEIGHT: u64 = 1;

const SHIFT_WEIGHT: u64 = 1;

// What one code counts among cells at the same distance: lowest focus, then first shift, then second.
pub const FOCUS_PLACE: u64 = 1 << 20;

pub const FIRST_PLACE: u64 = 1 << 10;

pub const SECOND_PLACE: u64 = 1;

// A rank above that of every cell, from which the search for the least sets out; no Option, since the least of ranks is only ever lowered.
const NONE: u64 = 1 << 60;

// Why there is no nearest cell.
#[derive(Clone, Copy, Debug, PartialEq, Eq)]
pub enum NearestError {
    // The list is empty: there is no cell.
    Empty,
    // The list is not valid, and why.
    Refused(Refusal),
}

impl From<Refusal> for NearestError {
    ghost from_gives = { λ r e. e ≡ Refused r };

    fn from(refusal: Refusal) -> NearestError {
        NearestError::Refused(refusal)
    }
}

// From where to where a map lies on the three axes.
#[derive(Clone, Copy)]
pub struct Extents {
    pub focus: Extent,
    pub first: Extent,
    pub second: Extent,
}

// Inner: from where to where the map of some keys lies: what is asked once of a map, for all wishes.
pub fn extents_of(keys: &[u32]) -> Extents
    requires { Keyed keys.now }
    ensures { Located keys.now result }
{
    let focus = ranks::extend(keys, keys::FOCUS);
    let first = ranks::extend(keys, keys::FIRST_SHIFT);
    let second = ranks::extend(keys, keys::SECOND_SHIFT);
    Extents {
        focus,
        first,
        second,
    }
}

// Inner: the least rank of the cells of the map of some keys, for a wish that is given by its steps above -32768, which are three numbers and no cell;
// room and work are to work in.
pub fn rank_of(
    keys: &[u32],
    extents: Extents,
    focus: u32,
    first: u32,
    second: u32,
    room: &mut [u32],
    work: &mut [u32],
) -> u64
    requires located { Located keys.now extents }
    requires wished { Wished focus first second }
    requires keys_in_bounds { (length keys.now ≤ length room.old) × (length keys.now ≤ length work.old) }
    ensures { RankedFor (map of_key keys.now) focus first second result }
{
    let x = extents.focus;
    let y = extents.first;
    let z = extents.second;
    let a = ranks::Scale::bring(focus, x.low, x.high, FOCUS_WEIGHT, FOCUS_PLACE);
    let b = ranks::Scale::bring(first, y.low, y.high, SHIFT_WEIGHT, FIRST_PLACE);
    let d = ranks::Scale::bring(second, z.low, z.high, SHIFT_WEIGHT, SECOND_PLACE);
    let scales = ranks::Scales {
        focus: a,
        first: b,
        second: d,
    };
    let rank = search::planes(keys, scales, NONE, room, work);
    let beyond = a.beyond(focus) + b.beyond(first) + d.beyond(second);
    rank + beyond * DISTANCE
}

// Inner: the same for a wish by its three numbers.
pub fn rank_of_wish(
    keys: &[u32],
    extents: Extents,
    wish: Cell,
    room: &mut [u32],
    work: &mut [u32],
) -> u64
    requires located { Located keys.now extents }
    requires keys_in_bounds { (length keys.now ≤ length room.old) × (length keys.now ≤ length work.old) }
    ensures { LeastRank (map of_key keys.now) wish result }
{
    let focus = codes::lift(wish.focus) as u32;
    let first = codes::lift(wish.first) as u32;
    let second = codes::lift(wish.second) as u32;
    rank_of(keys, extents, focus, first, second, room, work)
}

// The same of the cells of a map; the slices are room to work in.
fn rank_with_room(
    map: TravelMap,
    wish: Cell,
    keys: &mut [u32],
    room: &mut [u32],
    work: &mut [u32],
) -> u64
    requires some { 0 < length (vertices map.list.now) }
    requires rooms { Rooms (length (vertices map.list.now)) keys.old room.old work.old }
    ensures { LeastRank (vertices map.entry.list.now) wish result }
{
    let n = keys::read(map.list, keys);
    let front = &keys[..n];
    let extents = extents_of(front);
    rank_of_wish(front, extents, wish, room, work)
}

// The same with room of its own for ROOM vertices.
fn rank_in_room<const ROOM: usize>(map: TravelMap, wish: Cell) -> u64
    requires some { 0 < length (vertices map.list.now) }
    requires list_len_bound { length (vertices map.list.now) ≤ ROOM }
    requires room_bound { ROOM ≤ 1024 }
    ensures { LeastRank (vertices map.entry.list.now) wish result }
{
    let mut keys = [0u32; ROOM];
    let mut room = [0u32; ROOM];
    let mut work = [0u32; ROOM];
    rank_with_room(map, wish, &mut keys, &mut room, &mut work)
}

// Inner: the code that stands at a place of a rank.
pub fn code(rank: u64, place: u64) -> i16
    requires { 0 < place }
    ensures { result ≡ code_at rank place }
{
    keys::number_of((rank / place % END as u64) as u32)
}

// Inner: the cell of a rank.
pub fn cell_of(rank: u64) -> Cell
    ensures { result ≡ cell_of rank }
{
    Cell {
        focus: code(rank, FOCUS_PLACE),
        first: code(rank, FIRST_PLACE),
        second: code(rank, SECOND_PLACE),
    }
}

// The cell and the distance of a rank.
fn answer(rank: u64) -> Reached
    requires { rank < 2 ^ 62 }
    ensures { result ≡ found_at rank }
{
    Reached {
        at: cell_of(rank),
        far: (rank / DISTANCE) as u32,
    }
}

// Inner: what `nearest` answers of a map, for a caller that has checked its list once and has many wishes; none of the empty map.
// Apart from the check, so that the two do not stand on the stack together.
#[inline(never)]
pub fn nearest_of_map(map: TravelMap, wish: Cell) -> Option<Reached>
    ensures { Answered map.entry.list.now wish (ok_or result NearestError.Empty) }
{
    if map.list.is_empty() {
        return None;
    }
    if map.list.len() <= NUMBERS * SMALL {
        return Some(answer(rank_in_room::<SMALL>(map, wish)));
    }
    Some(answer(rank_in_room::<MOST_VERTICES>(map, wish)))
}

// The permitted cell nearest to a wish, with its distance: of several the one with the lowest focus, then first shift, then second.
pub fn nearest(list: &[i16], wish: Cell) -> Result<Reached, NearestError>
    ensures { Answered list.now wish result }
{
    nearest_of_map(TravelMap::of(list)?, wish).ok_or(NearestError::Empty)
}
