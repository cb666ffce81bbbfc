// The first place whose key occurs an odd number of times, in time that grows with the keys alone. A key has a high part and a low part.
// Places whose keys have one high part are linked to a chain; along a chain each low part has a flag, which is turned where that low part is met.
// Inner: what crates of the library lend each other. It relies on no order of the keys.
#![tactic(auto)]

ghost use Rattle.std.specs.Prelude.{◌≡◌, ℕ, ◌<◌, ◌≤◌, min, length, get_or};
ghost use Rattle.meaning.specs.Lists.{most_vertices};
ghost use Rattle.chains.specs.Odd.{first_odd};
ghost use Rattle.chains.specs.Chains.{high, low, Parted, Net, Chain, flagged, ups, Turned, FirstWith, FirstEnding};

use codes::LINE;
use meaning::MOST_VERTICES;

// How many values a part of a key may have.
const PARTS: usize = 1025;

// The high part of the key at a place.
fn high_at(keys: &[u32], place: usize) -> usize
    requires { Parted keys.now × (place < length keys.now) }
    ensures { (result ≡ high (get_or keys.now place 0)) × (result < 1025) }
{
    (keys[place] / LINE) as usize
}

// The low part of the key at a place.
fn low_at(keys: &[u32], place: usize) -> usize
    requires { Parted keys.now × (place < length keys.now) }
    ensures { (result ≡ low (get_or keys.now place 0)) × (result < 1025) }
{
    (keys[place] % LINE) as usize
}

// Links each place to the last one before it with the same high part, and each high part to its last place. Places count from 1; 0 is none.
fn link(keys: &[u32], heads: &mut [u16], links: &mut [u16])
    requires parted { Parted keys.now }
    requires keys_len_bound { length keys.now ≤ most_vertices }
    requires heads_len { (length heads.old ≡ 1025) × (length keys.now ≤ length links.old) }
    requires empty_heads { (h : ℕ) → get_or heads.old h 0 ≡ 0 }
    ensures { Net keys.now heads.new links.new }
{
    for i in 0..keys.len() {
        let high = high_at(keys, i);
        links[i] = heads[high];
        heads[high] = (i + 1) as u16;
    }
}

// Keys with their places linked: where the chain of each high part ends, and the place before each place on its chain.
#[derive(Clone, Copy)]
struct Linkage<'a> {
    keys: &'a [u32],
    heads: &'a [u16],
    links: &'a [u16],
    ghost parted: { Parted keys.now },
    ghost net: { Net keys.now heads.now links.now },
}

impl Linkage<'_> {
    // Turns, along the chain with this last place, the flag of each low part that is met. Given how many flags are up, answers how many then are.
    fn turn(&self, last: usize, flags: &mut [bool], up: usize) -> usize
        requires chain { Chain self.now.keys.now self.now.links.now last }
        requires flags_len { (length flags.old ≡ 1025) × (up ≡ ups flags.old) }
        ensures turned { Turned self.now.keys.now last flags.old flags.new }
        ensures value { result ≡ ups flags.new }
    {
        let mut count = up;
        let mut at = last + 1;
        // A walk along links: no iterator has its places.
        while let Some(place) = at.checked_sub(1) {
            let low = low_at(self.keys, place);
            if flags[low] {
                flags[low] = false;
                count -= 1;
            } else {
                flags[low] = true;
                count += 1;
            }
            at = self.links[place] as usize;
        }
        count
    }

    // The first place on the chain with this last place whose low part has its flag up, or the length.
    fn first_up(&self, last: usize, flags: &[bool]) -> usize
        requires chain { Chain self.now.keys.now self.now.links.now last }
        requires flags_len { length flags.now ≡ 1025 }
        ensures { FirstWith (flagged self.now.keys.now flags.now) self.now.keys.now last result }
    {
        let mut found = self.keys.len();
        let mut at = last + 1;
        // A walk along links: no iterator has its places.
        while let Some(place) = at.checked_sub(1) {
            if flags[low_at(self.keys, place)] {
                found = place;
            }
            at = self.links[place] as usize;
        }
        found
    }

    // The first place whose key occurs an odd number of times on the chain that ends at a place, or the length where none does or no chain ends
    // there. All flags are down before and after.
    fn first_ending(&self, place: usize, flags: &mut [bool]) -> usize
        requires place_in_bounds { place < length self.now.keys.now }
        requires flags_len { (length flags.old ≡ 1025) × (ups flags.old ≡ 0) }
        ensures { FirstEnding self.now.keys.now place result × (ups flags.new ≡ 0) }
    {
        let end = self.heads[high_at(self.keys, place)] as usize;
        if end != place + 1 {
            return self.keys.len();
        }
        let up = self.turn(place, flags, 0);
        if up == 0 {
            return self.keys.len();
        }
        let found = self.first_up(place, flags);
        self.turn(place, flags, up);
        found
    }

    // The first place whose key occurs an odd number of times, or the length. All flags are down before.
    fn first_odd(&self, flags: &mut [bool]) -> usize
        requires { (length flags.old ≡ 1025) × (ups flags.old ≡ 0) }
        ensures { result ≡ first_odd self.now.keys.now }
    {
        let mut first = self.keys.len();
        for place in 0..self.keys.len() {
            first = first.min(self.first_ending(place, flags));
        }
        first
    }
}

// The first place whose key occurs an odd number of times, or the length.
pub fn first_by_chains(keys: &[u32]) -> usize
    requires { Parted keys.now × (length keys.now ≤ most_vertices) }
    ensures { result ≡ first_odd keys.now }
{
    let mut heads = [0u16; PARTS];
    let mut links = [0u16; MOST_VERTICES];
    let mut flags = [false; PARTS];
    link(keys, &mut heads, &mut links);
    let linkage = Linkage {
        keys,
        heads: &heads,
        links: &links,
    };
    linkage.first_odd(&mut flags)
}
