// A list of corners, not too many: what the check asks of it once its numbers have passed.
ghost use Rattle.std.specs.Prelude.{◌≡◌, true, ◌+◌, ◌*◌, ◌<◌, ◌≤◌, length};
ghost use Rattle.meaning.specs.Numbers.{Axis, second};
ghost use Rattle.meaning.specs.Counting.{first};
ghost use Rattle.meaning.specs.Lists.{vertices, most_vertices};
ghost use Rattle.meaning.specs.Verdicts.{falls_at, on_odd_line_at};
ghost use Rattle.lists.specs.Check.{InRange, AllRise, Offsets, pair_at, Filled, first_on};

use codes::LINE;
use meaning::{MOST_VERTICES, NUMBERS, SMALL};

// The offsets, in a vertex, of two of its numbers: those that are left when an axis is left out.
#[derive(Clone, Copy)]
struct Pair {
    a: usize,
    b: usize,
    ghost offsets: { (a < 3) × (b < 3) },
}

// What is left without focus, without the first shift, without the second shift.
const ALONG_FOCUS: Pair = Pair { a: 1, b: 2 };

const ALONG_FIRST: Pair = Pair { a: 0, b: 2 };

const ALONG_SECOND: Pair = Pair { a: 0, b: 1 };

// A list whose vertices are corners, and no more of them than a list may have.
#[derive(Clone, Copy)]
pub struct Corners<'a> {
    pub list: &'a [i16],
    ghost in_range: { InRange list.now },
    ghost few: { length (vertices list.now) ≤ most_vertices },
}

impl Corners<'_> {
    // Whether each vertex stands above the one before it. No early end: several are tested at once.
    fn all_rise(self) -> bool
        ensures { result ≡ true → AllRise self.entry.list.now }
    {
        let n = self.list.len() / NUMBERS;
        if n == 0 {
            return true;
        }
        let mut last = codes::key_at(self.list, 0);
        let mut good = true;
        for i in 1..n {
            let key = codes::key_at(self.list, i);
            good &= last < key;
            last = key;
        }
        good
    }

    // The first vertex that does not stand above the one before it, or the count of vertices.
    pub fn first_falling(self) -> usize
        ensures { result ≡ first (falls_at (vertices self.entry.list.now)) (length (vertices self.entry.list.now)) }
    {
        let n = self.list.len() / NUMBERS;
        if self.all_rise() {
            return n;
        }
        for i in 1..n {
            if codes::key_at(self.list, i) <= codes::key_at(self.list, i - 1) {
                return i;
            }
        }
        n
    }

    // Two numbers of vertex i, as one number.
    fn pair_at(self, i: usize, pair: Pair) -> u32
        requires { 3 * i + 2 < length self.list.now }
        ensures { result ≡ pair_at self.entry.list.now pair.a pair.b i }
    {
        let one = codes::steps_at(self.list, NUMBERS * i + pair.a);
        let two = codes::steps_at(self.list, NUMBERS * i + pair.b);
        one * LINE + two
    }

    // Writes, for each vertex, two of its numbers as one number.
    fn fill(self, pair: Pair, keys: &mut [u32])
        requires { length keys.old ≡ length (vertices self.list.now) }
        ensures { Filled self.entry.list.now pair.a pair.b (length (vertices self.entry.list.now)) keys.new }
    {
        for (i, key) in keys.iter_mut().enumerate() {
            *key = self.pair_at(i, pair);
        }
    }

    // Whether the vertices lie two by two on lines of the second shift, so that each such line is even. No early end: several are tested at once.
    fn in_pairs(self) -> bool
        ensures { result ≡ true → length (vertices self.entry.list.now) ≡ first_on second (vertices self.entry.list.now) }
    {
        let n = self.list.len() / NUMBERS;
        let mut good = true;
        for i in 0..n / 2 {
            good &= self.pair_at(2 * i, ALONG_SECOND) == self.pair_at(2 * i + 1, ALONG_SECOND);
        }
        good & (n % 2 == 0)
    }

    // The first vertex two of whose numbers are those of an odd number of vertices, or the count of vertices; keys is room to work in.
    fn first_odd_pair(self, pair: Pair, keys: &mut [u32]) -> usize
        requires { length (vertices self.list.now) ≤ length keys.old }
        ensures { (axis : Axis) → Offsets axis pair.a pair.b → result ≡ first_on axis (vertices self.entry.list.now) }
    {
        let keys = &mut keys[..self.list.len() / NUMBERS];
        self.fill(pair, keys);
        lines::first_odd(keys)
    }

    // The first vertex on an odd line of the second shift, or the count of vertices; keys is room to work in.
    fn first_along_second(self, keys: &mut [u32]) -> usize
        requires { length (vertices self.list.now) ≤ length keys.old }
        ensures { result ≡ first_on second (vertices self.entry.list.now) }
    {
        if self.in_pairs() {
            return self.list.len() / NUMBERS;
        }
        self.first_odd_pair(ALONG_SECOND, keys)
    }

    // The first vertex on an odd line of any axis, or the count of vertices; keys is room to work in.
    fn first_with_room(self, keys: &mut [u32]) -> usize
        requires { length (vertices self.list.now) ≤ length keys.old }
        ensures { result ≡ first (on_odd_line_at (vertices self.entry.list.now)) (length (vertices self.entry.list.now)) }
    {
        let along_second = self.first_along_second(keys);
        if along_second == 0 {
            return 0;
        }
        let along_focus = self.first_odd_pair(ALONG_FOCUS, keys);
        if along_focus == 0 {
            return 0;
        }
        let along_first = self.first_odd_pair(ALONG_FIRST, keys);
        along_focus.min(along_first.min(along_second))
    }

    // The same with room of its own for so many vertices.
    fn first_of<const ROOM: usize>(self) -> usize
        requires room { length (vertices self.list.now) ≤ ROOM }
        requires room_bound { ROOM ≤ most_vertices }
        ensures { result ≡ first (on_odd_line_at (vertices self.entry.list.now)) (length (vertices self.entry.list.now)) }
    {
        let mut keys = [0u32; ROOM];
        self.first_with_room(&mut keys)
    }

    // The same with room for the list's vertices.
    pub fn first_on_odd_line(self) -> usize
        ensures { result ≡ first (on_odd_line_at (vertices self.entry.list.now)) (length (vertices self.entry.list.now)) }
    {
        if self.list.len() <= NUMBERS * SMALL {
            return self.first_of::<SMALL>();
        }
        self.first_of::<MOST_VERTICES>()
    }
}
