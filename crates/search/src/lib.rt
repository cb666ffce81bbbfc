// The least rank among the cells that a list of keys permits: those at the wish's focus, and those just behind each plane, where the plane's own
// pairs are taken by themselves. Inner: what `nearest` builds on. It relies on `squares` for lists of pairs and on `rising` for the one section.
#![tactic(auto)]

ghost use Rattle.std.specs.Prelude.{map, ◌<◌, ◌≤◌, length};
ghost use Rattle.rising.specs.Merged.{From, norm};
ghost use Rattle.rising.specs.Placed.{Front};
ghost use Rattle.cells.specs.Cells.{Best, Rank, Run, Cut, Edge, high, rest, section_in, map_in, plane_unit};
ghost use Rattle.search.specs.Search.{Even, Above, Below, OneSide};

use codes::PLANE;
use ranks::{END, Scales};
use squares::RisingList;

// Where the run of numbers with the high part of the one before place i begins.
fn run_start(list: &[u32], i: usize, unit: u32) -> usize
    requires unit_nonzero { 0 < unit }
    requires from { From 0 list.now }
    requires i_nonzero { (0 < i) × (i ≤ length list.now) }
    ensures { Run (high unit) list.now result i × Cut (high unit) list.now result }
{
    let base = list[i - 1] / unit * unit;
    for j in (1..i).rev() {
        if list[j - 1] < base {
            return j;
        }
    }
    0
}

// Writes the pairs of some keys to the front of room, in order, each that occurs an odd number of times once, and answers how many these are.
fn pairs_of(keys: &[u32], room: &mut [u32], work: &mut [u32]) -> usize
    requires { (length keys.now ≤ length room.old) × (length keys.now ≤ length work.old) }
    ensures { Front (norm (map (rest plane_unit) keys.now)) room.new result }
{
    for (n, key) in keys.iter().enumerate() {
        room[n] = *key % PLANE;
    }
    rising::cancel(&mut room[..keys.len()], work)
}

// The section at a place between planes: writes its pairs to the front of room, from the side that has fewer keys, and answers how many there are.
fn section(keys: &[u32], place: usize, room: &mut [u32], work: &mut [u32]) -> usize
    requires place_in_bounds { place ≤ length keys.now }
    requires keys_in_bounds { (length keys.now ≤ length room.old) × (length keys.now ≤ length work.old) }
    ensures { OneSide keys.now place room.new result }
{
    if keys.len() - place < place {
        return pairs_of(&keys[place..], room, work);
    }
    pairs_of(&keys[..place], room, work)
}

// The least of best and the ranks of the cells just behind the planes from a place up, where all planes lie above the wish's focus.
fn planes_above(keys: &[u32], place: usize, scales: Scales, best: u64) -> u64
    requires from { From 0 keys.now }
    requires edge { Edge (high plane_unit) keys.now scales.focus.wish place }
    ensures { Best (Above scales keys.now place) best result }
{
    let rising = RisingList {
        list: keys,
        base: 0,
    };
    let mut found = best;
    // By an index: `run_end` says where a plane ends, at one difference a key; `chunk_by` would divide at each two neighbours.
    let mut i = place;
    while i < keys.len() {
        let number = keys[i] / PLANE;
        if END <= number {
            return found;
        }
        let rank = scales.focus.value_behind(number);
        if found <= rank {
            return found;
        }
        let e = rising.run_end(i, PLANE);
        let pairs = RisingList {
            list: &keys[i..e],
            base: number * PLANE,
        };
        found = pairs.squares(scales, rank, found);
        i = e;
    }
    found
}

// The same of the planes below a place, where none lies above the wish's focus. Apart from the one above: it goes the other way, and no number ends it.
fn planes_below(keys: &[u32], place: usize, scales: Scales, best: u64) -> u64
    requires from { From 0 keys.now }
    requires edge { Edge (high plane_unit) keys.now scales.focus.wish place }
    ensures { Best (Below scales keys.now place) best result }
{
    let mut found = best;
    // By an index: from plane to plane downward, and no method of a slice goes by runs from its end.
    let mut i = place;
    while 0 < i {
        let number = keys[i - 1] / PLANE;
        let rank = scales.focus.value_behind(number);
        if found <= rank {
            return found;
        }
        let j = run_start(keys, i, PLANE);
        let pairs = RisingList {
            list: &keys[j..i],
            base: number * PLANE,
        };
        found = pairs.squares(scales, rank, found);
        i = j;
    }
    found
}

// The least of best and the ranks of all cells of a map; room is for the section at the wish's focus, work to order it.
pub fn planes(keys: &[u32], scales: Scales, best: u64, room: &mut [u32], work: &mut [u32]) -> u64
    requires from { From 0 keys.now }
    requires even { Even (section_in scales.first scales.second) keys.now }
    requires keys_in_bounds { (length keys.now ≤ length room.old) × (length keys.now ≤ length work.old) }
    ensures { Best (Rank (map_in scales.focus scales.first scales.second) keys.now 0) best result }
{
    let rising = RisingList {
        list: keys,
        base: 0,
    };
    let place = rising.upto(scales.focus.wish, PLANE);
    let n = section(keys, place, room, work);
    let rank = scales.focus.value_at(scales.focus.wish);
    let pairs = RisingList {
        list: &room[..n],
        base: 0,
    };
    let at_wish = pairs.squares(scales, rank, best);
    let above = planes_above(keys, place, scales, at_wish);
    planes_below(keys, place, scales, above)
}
