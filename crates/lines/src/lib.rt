// Lines with an odd number of vertices: of a slice of numbers, the first place whose number occurs an odd number of times.
// Inner: what crates of the library lend each other. A table of hashed keys is quick to show that every key occurs an even number of times.
// Where it does not, chains find the place. Nothing relies on an order of the numbers or on a property of the hashing.
#![tactic(auto)]

ghost use Rattle.std.specs.Prelude.{◌≡◌, true, [], ◌<◌, ◌≤◌, ◌%◌, eqb, length, position, unwrap_or, sum_by};
ghost use Rattle.meaning.specs.Counting.{count, odd};
ghost use Rattle.meaning.specs.Lists.{most_vertices};
ghost use Rattle.chains.specs.Odd.{first_odd};
ghost use Rattle.chains.specs.Chains.{Parted};
ghost use Rattle.lines.specs.Table.{range, IsKeyed, Room, Flipped, Holds, NoneOdd};

use meaning::MOST_VERTICES;

// Up to so many keys are counted, with no table.
const FEW: usize = 16;
// Up to so many keys go into the small table.
const SOME: usize = 128;
// The slots of the small table.
const SMALL: usize = 256;
// The slots of the large table.
const LARGE: usize = 2 * MOST_VERTICES;
// A search of a table gives up after so many slots.
const TRIES: usize = 16;
// What is answered where a key did not get into the table: a plain no, since nothing goes with it.
const GAVE_UP: bool = false;
// An odd number without a pattern, by which keys are spread over the slots.
const SPREAD: u32 = 0xC2B2_AE35;

// Whether a number occurs an odd number of times among the keys.
fn occurs_oddly(keys: &[u32], key: u32) -> bool
    ensures { result ≡ odd (count (λ k. eqb key k) keys.now) }
{
    let mut oddly = false;
    for k in keys {
        oddly ^= key == *k;
    }
    oddly
}

// The first place whose key occurs an odd number of times, or the length: each key is counted over all.
fn first_by_counting(keys: &[u32]) -> usize
    ensures { result ≡ unwrap_or (position (λ key. odd (count (λ k. eqb key k) keys.now)) keys.now) (length keys.now) }
{
    keys.iter()
        .position(|key| occurs_oddly(keys, *key))
        .unwrap_or(keys.len())
}

// The slot at which the search for a key begins, in a table of so many slots.
fn begin(key: u32, slots: usize) -> usize
    requires { Room slots }
    ensures { result < slots }
{
    let spread = u64::from(key.wrapping_mul(SPREAD));
    (spread * slots as u64 >> u32::BITS) as usize
}

// The slot after a slot: after the last comes the first.
fn after(at: usize, slots: usize) -> usize
    requires { at < slots }
    ensures { result < slots }
{
    let next = at + 1;
    if next < slots { next } else { 0 }
}

// Puts a key into the table, or takes it out, unless the search gives up.
fn flip(table: &mut [u32], key: u32) -> bool
    requires { IsKeyed key × Room (length table.old) }
    ensures { result ≡ true → Flipped key table.old table.new }
{
    let half = key + 1;
    let mut at = begin(key, table.len());
    for _ in 0..TRIES {
        let entry = table[at];
        if entry == 0 || entry / 2 == half {
            table[at] = 2 * half + 1 - entry % 2;
            return true;
        }
        at = after(at, table.len());
    }
    GAVE_UP
}

// Flips every key, unless a search gives up.
fn fill(table: &mut [u32], keys: &[u32]) -> bool
    requires parted { Parted keys.now }
    requires holds { Holds table.old [] × Room (length table.old) }
    ensures { result ≡ true → Holds table.new keys.now }
{
    for key in keys {
        if !flip(table, *key) {
            return GAVE_UP;
        }
    }
    true
}

// How many slots have a live entry.
fn count_live(table: &[u32]) -> u32
    requires { sum_by (λ entry. entry % 2) table.now < range }
    ensures { result ≡ sum_by (λ entry. entry % 2) table.now }
{
    table.iter().map(|entry| *entry % 2).sum()
}

// Whether a table of so many slots shows that every key occurs an even number of times. It may give up, and then says no.
fn even_by<const SLOTS: usize>(keys: &[u32]) -> bool
    requires { Parted keys.now × Room SLOTS }
    ensures { result ≡ true → NoneOdd keys.now }
{
    let mut table = [0; SLOTS];
    fill(&mut table, keys) && count_live(&table) == 0
}

// The same by way of the table that has room.
fn shown_even(keys: &[u32]) -> bool
    requires { Parted keys.now }
    ensures { result ≡ true → NoneOdd keys.now }
{
    if keys.len() <= SOME {
        even_by::<SMALL>(keys)
    } else {
        even_by::<LARGE>(keys)
    }
}

// The first place whose key occurs an odd number of times, or the length where there is none.
pub fn first_odd(keys: &[u32]) -> usize
    requires { Parted keys.now × (length keys.now ≤ most_vertices) }
    ensures { result ≡ first_odd keys.now }
{
    if keys.len() <= FEW {
        return first_by_counting(keys);
    }
    if shown_even(keys) {
        return keys.len();
    }
    chains::first_by_chains(keys)
}
