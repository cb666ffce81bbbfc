// The law of the nearest cell along an axis (proofs/Axis.antt), and the least rank of the cells of one line. Inner: what the search for the nearest
// cell builds on. A line has cells at the wish's code, where an odd number of its numbers lie up to it; else the nearest of them lies just behind a
// number that it has an odd number of times.
#![tactic(auto)]

ghost use Rattle.std.specs.Prelude.{◌≡◌, [], ◌-◌, ◌*◌, ◌<◌, ◌≤◌, ◌^◌, leb, length, MatchOption};
ghost use Rattle.meaning.proofs.Parity.{sum};
ghost use Rattle.rows.specs.Rows.{bit_at};
ghost use Rattle.ranks.specs.Values.{axis_codes};
ghost use Rattle.cells.specs.Cells.{Best, Rank, Turned, point, line_in, line_unit, rest};
ghost use Rattle.cells.specs.Line.{Above, numbers_of, NotAt, Once, Behind, Toggled, Tells};

use codes::LINE;
use ranks::{END, Scale};
use rows::BITS;

// The words of a row that has a bit for each number of a line of keys.
const WORDS: usize = 32;

// The lesser of best and the rank, from rank up, of the code just behind a number, if the number is a code.
fn behind_one(second: Scale, number: u32, rank: u64, best: u64) -> u64
    requires { rank < 2 ^ 60 }
    ensures { Best (Behind second number rank) best result }
{
    if END <= number {
        return best;
    }
    best.min(rank + second.value_behind(number))
}

// Turns one bit of a row.
fn toggle(row: &mut [u64], at: usize)
    requires { at < 64 * length row.old }
    ensures { Toggled at row.old row.new }
{
    row[at / BITS] ^= 1 << (at % BITS);
}

// Whether a bit of a row is set.
fn is_set(row: &[u64], at: usize) -> bool
    requires { at < 64 * length row.now }
    ensures { result ≡ bit_at row.now at }
{
    (row[at / BITS] >> (at % BITS)) % 2 == 1
}

// Pairs of numbers as keys that count from a base, the first key of their plane.
#[derive(Clone, Copy)]
pub struct Pairs<'a> {
    pub list: &'a [u32],
    pub base: u32,
    pub ghost above: { Above base list.now },
}

impl Pairs<'_> {
    // The number on its line of a pair.
    fn number_of(self, pair: u32) -> u32
        requires { self.base ≤ pair }
        ensures { result ≡ rest line_unit (pair - self.entry.base) }
    {
        (pair - self.base) % LINE
    }

    // Whether an odd number of the pairs have a number of at most a code.
    fn odd_upto(self, code: u32) -> bool
        ensures { result ≡ sum (λ k. leb k code) (numbers_of self.entry.base self.entry.list.now) }
    {
        let mut odd = false;
        for pair in self.list {
            odd ^= self.number_of(*pair) <= code;
        }
        odd
    }

    // The least of best and the ranks, from rank up, of the codes just behind the pairs' numbers, of which each is there an odd number of times.
    fn behind_each(self, second: Scale, rank: u64, best: u64) -> u64
        requires once { Once (numbers_of self.base self.list.now) }
        requires rank_bound { rank < 2 ^ 60 }
        ensures { Best (Turned 1 second point (numbers_of self.entry.base self.entry.list.now) 0 axis_codes rank) best result }
    {
        let mut found = best;
        for pair in self.list {
            found = behind_one(second, self.number_of(*pair), rank, found);
        }
        found
    }

    // Fills a row that has no bit set: a bit is set where an odd number of the pairs have that number.
    fn fill(self, row: &mut [u64])
        requires { Tells [] row.old }
        ensures { Tells (numbers_of self.entry.base self.entry.list.now) row.new }
    {
        for pair in self.list {
            toggle(row, self.number_of(*pair) as usize);
        }
    }

    // The least of best and the ranks, from rank up, of the codes just behind the numbers that a row says are there an odd number of times. Apart from
    // `behind_each`, which needs no row.
    fn behind_odd(self, row: &[u64], second: Scale, rank: u64, best: u64) -> u64
        requires tells { Tells (numbers_of self.base self.list.now) row.now }
        requires rank_bound { rank < 2 ^ 60 }
        ensures { Best (Turned 1 second point (numbers_of self.entry.base self.entry.list.now) 0 axis_codes rank) best result }
    {
        let mut found = best;
        for pair in self.list {
            let number = self.number_of(*pair);
            if is_set(row, number as usize) {
                found = behind_one(second, number, rank, found);
            }
        }
        found
    }

    // The least of best and the ranks, from rank up, of the cells of a line, where the wish's code is permitted there or none can be less than best.
    fn at_wish(self, second: Scale, rank: u64, best: u64) -> Option<u64>
        requires { rank < 2 ^ 60 }
        ensures { MatchOption result (NotAt second.wish (numbers_of self.entry.base self.entry.list.now))
            (Best (Rank (line_in second) (numbers_of self.entry.base self.entry.list.now) rank) best) }
    {
        if best <= rank {
            return Some(best);
        }
        if self.odd_upto(second.wish) {
            return Some(best.min(rank + second.value_at(second.wish)));
        }
        None
    }

    // The least of best and the ranks, from rank up, of the cells of a line that has each number of the pairs, all different.
    pub fn own_line(self, second: Scale, rank: u64, best: u64) -> u64
        requires once { Once (numbers_of self.base self.list.now) }
        requires rank_bound { rank < 2 ^ 60 }
        ensures { Best (Rank (line_in second) (numbers_of self.entry.base self.entry.list.now) rank) best result }
    {
        if let Some(found) = self.at_wish(second, rank, best) {
            return found;
        }
        self.behind_each(second, rank, best)
    }

    // The same of the exclusive or of all lines that the pairs lie on.
    pub fn joint_line(self, second: Scale, rank: u64, best: u64) -> u64
        requires { rank < 2 ^ 60 }
        ensures { Best (Rank (line_in second) (numbers_of self.entry.base self.entry.list.now) rank) best result }
    {
        if let Some(found) = self.at_wish(second, rank, best) {
            return found;
        }
        let mut row = [0u64; WORDS];
        self.fill(&mut row);
        self.behind_odd(&row, second, rank, best)
    }
}
