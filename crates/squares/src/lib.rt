// The least rank of the squares of a rising list of pairs: on the wish's own line, and just behind each line that the pairs lie on, where its own
// numbers are taken by themselves. Inner: what the search for the nearest cell builds on. It relies on `cells` for the law and for lines.
#![tactic(auto)]

ghost use Rattle.std.specs.Prelude.{◌<◌, ◌≤◌, ◌^◌, length};
ghost use Rattle.rising.specs.Merged.{less_base};
ghost use Rattle.ranks.specs.Values.{axis_codes};
ghost use Rattle.cells.specs.Cells.{Best, Rank, Edge, high, section_in, plane_unit};
ghost use Rattle.squares.specs.Rising.{Rising, rising_prop, RunTo, BehindLines};

use cells::Pairs;
use codes::LINE;
use ranks::{END, Scales};

// A rising list of numbers that count from a base.
#[derive(Clone, Copy)]
pub struct RisingList<'a> {
    pub list: &'a [u32],
    pub base: u32,
    pub ghost rising: { Rising base list.now } by { rising_prop base list.now },
}

impl RisingList<'_> {
    // Where the run of numbers with the high part of the one at place i ends.
    pub fn run_end(self, i: usize, unit: u32) -> usize
        requires unit_nonzero { 0 < unit }
        requires i_in_bounds { i < length self.list.now }
        ensures { RunTo unit self.entry.base self.entry.list.now i result }
    {
        let low = (self.list[i] - self.base) / unit * unit;
        for e in i + 1..self.list.len() {
            if unit <= self.list[e] - self.base - low {
                return e;
            }
        }
        self.list.len()
    }

    // How many of the numbers have a high part of at most a code.
    pub fn upto(self, code: u32, unit: u32) -> usize
        requires { (0 < unit) × (unit ≤ plane_unit) × (code < axis_codes) }
        ensures { Edge (high unit) (less_base self.entry.base self.entry.list.now) code result }
    {
        let base = self.base;
        let bound = (code + 1) * unit;
        self.list
            .partition_point(|key| key.saturating_sub(base) < bound)
    }

    // The least of best and the ranks, from rank up, of the squares just behind the lines that the pairs lie on.
    fn own_lines(self, scales: Scales, rank: u64, best: u64) -> u64
        requires { rank < 2 ^ 50 }
        ensures { Best (BehindLines scales (less_base self.entry.base self.entry.list.now) rank) best result }
    {
        let mut found = best;
        // By an index: `run_end` says where a run ends, at one difference a number; `chunk_by` would divide at each two neighbours.
        let mut i = 0;
        while i < self.list.len() {
            let line = (self.list[i] - self.base) / LINE;
            if END <= line {
                return found;
            }
            let e = self.run_end(i, LINE);
            let near = rank + scales.first.value_behind(line);
            let own = Pairs {
                list: &self.list[i..e],
                base: self.base,
            };
            found = own.own_line(scales.second, near, found);
            i = e;
        }
        found
    }

    // The least of best and the ranks, from rank up, of all squares of the pairs.
    pub fn squares(self, scales: Scales, rank: u64, best: u64) -> u64
        requires { rank < 2 ^ 50 }
        ensures { Best (Rank (section_in scales.first scales.second) (less_base self.entry.base self.entry.list.now) rank) best result }
    {
        if best <= rank {
            return best;
        }
        let place = self.upto(scales.first.wish, LINE);
        let at_wish = rank + scales.first.value_at(scales.first.wish);
        let front = Pairs {
            list: &self.list[..place],
            base: self.base,
        };
        let found = front.joint_line(scales.second, at_wish, best);
        self.own_lines(scales, rank, found)
    }
}
