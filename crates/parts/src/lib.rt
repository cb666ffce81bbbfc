// Keys along an axis: what a section and the halves of a split are made of. Inner: what cuts builds on. It relies on `lists` for travel maps, on
// `keys` for the way from a list to keys, and on `rising` for the merge.
#![tactic(auto)]

ghost use Rattle.std.specs.Prelude.{◌++◌, map, ◌≡◌, ◌*◌, ◌≤◌, length, drop};
ghost use Rattle.meaning.specs.Numbers.{number};
ghost use Rattle.meaning.specs.Counting.{All};
ghost use Rattle.meaning.specs.Lists.{vertices, permitted};
ghost use Rattle.meaning.specs.OneList.{one_list, one_pairs};
ghost use Rattle.meaning.specs.Operations.{section_at, lower_half, upper_half};
ghost use Rattle.codes.specs.Keys.{key_of, of_key};
ghost use Rattle.rising.specs.Merged.{norm};
ghost use Rattle.rising.specs.Placed.{Placed, Front};
ghost use Rattle.keys.specs.Parts.{KeyOk, PairOk, pair_of_key, axis_at};
ghost use Rattle.parts.specs.Axes.{pair_on, raised_key, pairs_below, KeysOf};

use codes::{LINE, PLANE};
use keys::{FIRST_SHIFT, FOCUS};
use lists::TravelMap;

// How many keys the two halves of a split have.
#[derive(Clone, Copy, Debug, PartialEq, Eq)]
pub struct Halves {
    pub lower: usize,
    pub upper: usize,
}

// The pair key of what is left of a key's corner without an axis.
fn pair_on(key: u32, axis: u32) -> u32
    ensures { result ≡ pair_on (axis_at axis) key }
{
    let rest = key % PLANE;
    if axis == FOCUS {
        return rest;
    }
    let high = key / PLANE * LINE;
    if axis == FIRST_SHIFT {
        return high + rest % LINE;
    }
    high + rest / LINE
}

// A key whose corner is raised to at least so many steps on an axis.
fn raised(key: u32, axis: u32, at: u32) -> u32
    requires key_ok { KeyOk key }
    requires at_bound { at ≤ 1024 }
    ensures { result ≡ raised_key (axis_at axis) at key }
{
    let part = keys::part_on(key, axis);
    if at <= part {
        return key;
    }
    if axis == FOCUS {
        return key + (at - part) * PLANE;
    }
    if axis == FIRST_SHIFT {
        return key + (at - part) * LINE;
    }
    key + (at - part)
}

// Writes the pair keys of the corners at or below a cut to the front of out, and answers how many there are.
fn pairs_below(keys: &[u32], axis: u32, cut: u32, out: &mut [u32]) -> usize
    requires { length keys.now ≤ length out.old }
    ensures { Placed (pairs_below (axis_at axis) cut keys.now) out.old out.new result }
{
    let mut n = 0;
    for key in keys {
        if keys::part_on(*key, axis) <= cut {
            out[n] = pair_on(*key, axis);
            n += 1;
        }
    }
    n
}

// Writes the keys raised to at least so many steps on an axis to the front of out.
fn raise_all(keys: &[u32], axis: u32, at: u32, out: &mut [u32])
    requires keys_in_bounds { length keys.now ≤ length out.old }
    requires all { All KeyOk keys.now }
    requires at_bound { at ≤ 1024 }
    ensures { out.new ≡ map (raised_key (axis_at axis) at) keys.now ++ drop (length keys.now) out.old }
{
    for (i, key) in keys.iter().enumerate() {
        out[i] = raised(*key, axis, at);
    }
}

// Writes the pair keys of a section to the front of keys, and answers how many there are; work is room to work in.
// The axis is a number here and below, since the wrong program bad_axis_let_through of cuts must be able to hand on one that names none.
pub fn section_keys(
    map: TravelMap,
    axis: u32,
    cut: u32,
    keys: &mut [u32],
    work: &mut [u32],
) -> usize
    requires keys_room { length (vertices map.list.now) ≤ length keys.old }
    requires work_room { length (vertices map.list.now) ≤ length work.old }
    ensures { KeysOf PairOk pair_of_key
        (one_pairs (section_at (axis_at axis) (number cut) (permitted (vertices map.entry.list.now))))
        keys.new result }
{
    let count = keys::read(map.list, work);
    let n = pairs_below(&work[..count], axis, cut, keys);
    rising::cancel(&mut keys[..n], work)
}

// Writes the keys that are left in order when those of a map are raised on an axis to the front of upper, and answers how many there are; work is
// room to work in.
fn upper_keys(whole: &[u32], axis: u32, at: u32, upper: &mut [u32], work: &mut [u32]) -> usize
    requires all { All KeyOk whole.now }
    requires at_bound { at ≤ 1024 }
    requires upper_room { length whole.now ≤ length upper.old }
    requires work_room { length whole.now ≤ length work.old }
    ensures { Front (norm (map (raised_key (axis_at axis) at) whole.now)) upper.new result }
{
    raise_all(whole, axis, at, upper);
    let n = whole.len();
    rising::cancel(&mut upper[..n], work)
}

// Writes the keys of the two halves of a split to the fronts of lower and upper, and answers how many each has; whole is room to work in.
pub fn split_keys(
    map: TravelMap,
    axis: u32,
    at: u32,
    whole: &mut [u32],
    upper: &mut [u32],
    lower: &mut [u32],
) -> Halves
    requires at_bound { at ≤ 1024 }
    requires whole_room { length (vertices map.list.now) ≤ length whole.old }
    requires upper_room { length (vertices map.list.now) ≤ length upper.old }
    requires lower_room { 2 * length (vertices map.list.now) ≤ length lower.old }
    ensures lower_keys { KeysOf KeyOk of_key
        (one_list (lower_half (axis_at axis) (number at) (permitted (vertices map.entry.list.now))))
        lower.new result.lower }
    ensures upper_keys { KeysOf KeyOk of_key
        (one_list (upper_half (axis_at axis) (number at) (permitted (vertices map.entry.list.now))))
        upper.new result.upper }
{
    let n = keys::read(map.list, whole);
    let above = upper_keys(&whole[..n], axis, at, upper, lower);
    let below = rising::merge(&whole[..n], &upper[..above], 0, lower);
    Halves {
        lower: below,
        upper: above,
    }
}
