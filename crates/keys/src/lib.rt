// Between lists of numbers and rising lists of keys. Inner: what other crates build on. It relies on `codes` for the crossing between
// signed numbers and unsigned ones and for the key of a vertex.
#![tactic(auto)]

ghost use Rattle.std.specs.Prelude.{◌≡◌, true, List, [], ◌∷◌, ◌++◌, map, ℕ, ◌*◌, ℤ, ◌≤◌, length, drop};
ghost use Rattle.meaning.specs.Numbers.{is_corner, number};
ghost use Rattle.meaning.specs.Counting.{All};
ghost use Rattle.meaning.specs.Lists.{vertices, numbers};
ghost use Rattle.meaning.specs.Operations.{pair_numbers};
ghost use Rattle.codes.specs.Keys.{key_of, of_key};
ghost use Rattle.keys.specs.Parts.{KeyOk, PairOk, pair_of_key, axis_at, part_on};
ghost use Rattle.keys.specs.Spelled.{Writes, Spells};

use codes::{LINE, LOWEST, PLANE};
use meaning::NUMBERS;

// The axes by their numbers.
pub const FOCUS: u32 = 0;

pub const FIRST_SHIFT: u32 = 1;

pub const SECOND_SHIFT: u32 = 2;

// The numbers of a pair.
const PAIR: usize = 2;

// How many steps above the lowest a key's corner lies on an axis. The axis is a number, and no enum: the wrong program cuts/bad_axis_let_through must
// be able to hand on one that names none.
pub fn part_on(key: u32, axis: u32) -> u32
    ensures { result ≡ part_on (axis_at axis) key }
{
    if axis == FOCUS {
        return key / PLANE;
    }
    if axis == FIRST_SHIFT {
        return key % PLANE / LINE;
    }
    key % PLANE % LINE
}

// Writes the keys of a list's vertices to the front of out, and answers how many there are.
pub fn read(list: &[i16], out: &mut [u32]) -> usize
    requires all { All (λ v. is_corner v ≡ true) (vertices list.now) }
    requires list_in_bounds { length (vertices list.now) ≤ length out.old }
    ensures { (result ≡ length (vertices list.now))
        × (out.new ≡ map key_of (vertices list.now) ++ drop result out.old) }
{
    let n = list.len() / NUMBERS;
    for i in 0..n {
        out[i] = codes::key_at(list, i);
    }
    n
}

// The corner number that lies so many steps above the lowest.
pub fn number_of(steps: u32) -> i16
    requires { steps ≤ 1024 }
    ensures { result ≡ number steps }
{
    codes::lower(steps as u16 + LOWEST)
}

// Writes the three numbers of a key's corner.
fn write_corner(key: u32, out: &mut [i16])
    requires key_ok { KeyOk key }
    requires room { length out.old ≡ 3 }
    ensures { out.new ≡ numbers (of_key key ∷ []) }
{
    // One by one, here and below: an array that is copied is stored and loaded again, by which a section takes a quarter more.
    let rest = key % PLANE;
    out[0] = number_of(key / PLANE);
    out[1] = number_of(rest / LINE);
    out[2] = number_of(rest % LINE);
}

// Writes the two numbers of a pair key's pair.
fn write_pair(key: u32, out: &mut [i16])
    requires key_ok { PairOk key }
    requires room { length out.old ≡ 2 }
    ensures { out.new ≡ pair_numbers (pair_of_key key ∷ []) }
{
    out[0] = number_of(key / LINE);
    out[1] = number_of(key % LINE);
}

// Writes so many numbers for each key, as one of them is written, to the front of out.
fn write_each<const WIDTH: usize, F: Fn(u32, &mut [i16])>(
    keys: &[u32],
    out: &mut [i16],
    write_one: F,
)
    requires all { All (Writes F.Fn write_one WIDTH) keys.now }
    requires keys_in_bounds { WIDTH * length keys.now ≤ length out.old }
    ensures { (spell : List ℕ → List ℤ) → Spells F.Fn write_one spell
        → out.new ≡ spell keys.now ++ drop (WIDTH * length keys.now) out.old }
{
    for (i, key) in keys.iter().enumerate() {
        let n = WIDTH * i;
        write_one(*key, &mut out[n..n + WIDTH]);
    }
}

// Writes the vertices of some keys, three numbers each, to the front of out. That they are keys of corners is asked here and is no invariant of a type:
// keys stand in lent room that is written anew from step to step.
pub fn write(keys: &[u32], out: &mut [i16])
    requires all { All KeyOk keys.now }
    requires keys_in_bounds { 3 * length keys.now ≤ length out.old }
    ensures { out.new ≡ numbers (map of_key keys.now) ++ drop (3 * length keys.now) out.old }
{
    write_each::<NUMBERS, _>(keys, out, write_corner);
}

// Writes the pairs of some pair keys, two numbers each, to the front of out.
pub fn write_pairs(keys: &[u32], out: &mut [i16])
    requires all { All PairOk keys.now }
    requires keys_in_bounds { 2 * length keys.now ≤ length out.old }
    ensures { out.new ≡ pair_numbers (map pair_of_key keys.now) ++ drop (2 * length keys.now) out.old }
{
    write_each::<PAIR, _>(keys, out, write_pair);
}
