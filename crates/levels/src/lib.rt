// Inner: the sweep over planes (report, section 4), with what changes in place of whole sections. At each plane it goes through the lines of the two
// sections and of the two operands' planes, by rows of bits, and puts out the keys at which the operation changes. Sections of the result are not
// kept. It relies on `turn` for planes and sections of the operands, and on `rows` for lines.
#![tactic(auto)]

ghost use Rattle.std.specs.Prelude.{◌≡◌, ◌+◌, ◌-◌, ◌*◌, ◌%◌, ◌≤◌, ◌<◌, ◌^◌, true, fold, min, max, length};
ghost use Rattle.meaning.specs.Counting.{All};
ghost use Rattle.rising.specs.Merged.{less_base};
ghost use Rattle.rows.specs.Rows.{holds_by};
ghost use Rattle.levels.specs.Level.{Operand, Joined, plane_fits, PlaneOk};
ghost use Rattle.levels.specs.Planes.{lesser_of, Begun, HeadIs, AtLine, LineTaken, Spanned, Planes, Changed};

use codes::{LINE, PLANE};
use rows::BITS;

// The words of a row that has a bit for each corner number.
const WORDS: usize = 17;

// The last corner number, counted from 0.
const HIGHEST: u32 = 1024;

// The lesser of two keys, either of which may be missing: `min` of two Options would take the missing one for the lesser.
fn lesser(a: Option<u32>, b: Option<u32>) -> Option<u32>
    ensures { result ≡ lesser_of a b }
{
    match (a, b) {
        (None, y) => y,
        (x, None) => x,
        (Some(x), Some(y)) => Some(x.min(y)),
    }
}

// The numbers of a line that a row has bits for.
#[derive(Clone, Copy)]
struct Span {
    // The lowest.
    low: u32,
    // The words of a row.
    words: usize,
    ghost low_bound: { low ≤ 1024 },
    ghost words_bound: { words ≤ 17 },
}

// A list of keys that is read line by line. The row of bits for the keys that are read lies beside it: an array among the fields would keep them all
// in memory, from where each line would bring them again.
#[derive(Drop)]
struct Reading<'a> {
    keys: &'a [u32],
    // What the keys count from.
    base: u32,
    // How many keys are read.
    read: usize,
}

impl<'a> Reading<'a> {
    // A list of which nothing is read.
    fn new(keys: &'a [u32], base: u32) -> Reading<'a>
        ensures { Begun keys.now base result }
    {
        Reading {
            keys,
            base,
            read: 0,
        }
    }

    // The first key that is left, less the base.
    fn head(&self) -> Option<u32>
        requires { All (λ k. self.now.base ≤ k) self.now.keys.now }
        ensures { HeadIs self.now.base self.now.keys.now self.now.read result }
    {
        let key = self.keys.get(self.read)?;
        Some(*key - self.base)
    }

    // Takes the keys of a line into a row. A line that has no key of the list is passed over without asking `rows`, which is quicker.
    fn take_line(&mut self, row: &mut [u64], line: u32, span: Span)
        requires { AtLine line span.low (length row.old) self.old }
        ensures { LineTaken line span.low row.old row.new self.old self.new }
    {
        let start = self.base + line;
        let limit = start + LINE;
        let Some(key) = self.keys.get(self.read) else {
            return;
        };
        if *key < limit {
            self.read = rows::take_line(row, self.keys, self.read, start + span.low, limit);
        }
    }

    // Whether all keys are read.
    fn is_read(&self) -> bool
        ensures { result ≡ true → self.now.read ≡ length self.now.keys.now }
    {
        self.read == self.keys.len()
    }
}

// What the sweep of a plane reads: the operands' sections before it, and its keys of each operand, which count from a base. That they rise and
// are in range is no ghost field: such a fact on lists goes by recursion, and would need a proof of its own that it has one value at most.
#[derive(Clone, Copy)]
struct Operands<'a> {
    sa: &'a [u32],
    sb: &'a [u32],
    pa: &'a [u32],
    pb: &'a [u32],
    base: u32,
    span: Span,
    ghost base_bound: { base ≤ 2149580800 },
}

// Puts out, behind n keys, what a plane changes, and answers how many keys that makes. The operation is a number here, as `rows` takes it.
fn changes(op: u32, of: Operands, out: &mut [u32], n: usize) -> usize
    requires planes { Planes of.span.low of.span.words of.base of.sa.now of.sb.now of.pa.now of.pb.now }
    requires count_bound { n + 1088 * (length of.sa.now + length of.sb.now + length of.pa.now + length of.pb.now) ≤ 2 ^ 60 }
    ensures { Changed op of.entry.sa.now of.entry.sb.now (less_base of.entry.base of.entry.pa.now) (less_base of.entry.base of.entry.pb.now)
        of.entry.base out.old n out.new result }
{
    let span = of.span;
    let mut in_sa = Reading::new(of.sa, 0);
    let mut in_sb = Reading::new(of.sb, 0);
    let mut in_pa = Reading::new(of.pa, of.base);
    let mut in_pb = Reading::new(of.pb, of.base);
    let mut before_a = [0; WORDS];
    let mut before_b = [0; WORDS];
    let mut turns_a = [0; WORDS];
    let mut turns_b = [0; WORDS];
    let mut last = [0; WORDS];
    let ra = &mut before_a[..span.words];
    let rb = &mut before_b[..span.words];
    let ca = &mut turns_a[..span.words];
    let cb = &mut turns_b[..span.words];
    let turned = &mut last[..span.words];
    let mut put = n;
    while let Some(least) = lesser(
        lesser(in_sa.head(), in_sb.head()),
        lesser(in_pa.head(), in_pb.head()),
    ) {
        let line = least - least % LINE;
        in_sa.take_line(ra, line, span);
        in_sb.take_line(rb, line, span);
        in_pa.take_line(ca, line, span);
        in_pb.take_line(cb, line, span);
        if 0 < in_pa.read + in_pb.read {
            let start = of.base + line + span.low;
            put = rows::put_line(op, ra, rb, ca, cb, turned, start, out, put);
            if in_pa.is_read() && in_pb.is_read() && rows::is_zero(ca) && rows::is_zero(cb) {
                return put;
            }
        }
    }
    put
}

// The least of a number and the numbers of some keys on their lines.
fn least_number(keys: &[u32], from: u32) -> u32
    ensures { result ≡ fold (λ m k. min m (k % 2048)) from keys.now }
{
    keys.iter().fold(from, |least, key| least.min(*key % LINE))
}

// The greatest of a number and the numbers of some keys on their lines.
fn greatest_number(keys: &[u32], from: u32) -> u32
    ensures { result ≡ fold (λ m k. max m (k % 2048)) from keys.now }
{
    keys.iter()
        .fold(from, |greatest, key| greatest.max(*key % LINE))
}

// The span of the numbers of two lists of keys.
fn span_of(a: &[u32], b: &[u32]) -> Span
    requires { All PlaneOk a.now × All PlaneOk b.now }
    ensures { All (Spanned result.low result.words) a.now × All (Spanned result.low result.words) b.now }
{
    let low = least_number(b, least_number(a, HIGHEST));
    let high = greatest_number(b, greatest_number(a, low));
    Span {
        low,
        words: (high - low) as usize / BITS + 1,
    }
}

// Joins two rising lists of keys, plane by plane; the sections and the room are working room.
pub fn join_planes(
    op: u32,
    a: &[u32],
    b: &[u32],
    out: &mut [u32],
    sa: &mut [u32],
    sb: &mut [u32],
    room: &mut [u32],
) -> usize
    requires operand { Operand PlaneOk a.now × Operand PlaneOk b.now }
    requires a_in_bounds { (length a.now ≤ length sa.old) × (length b.now ≤ length sb.old)
        × (length a.now ≤ length room.old) × (length b.now ≤ length room.old) }
    requires a_len_bound { (length a.now ≤ 2 ^ 20) × (length b.now ≤ 2 ^ 20) × (length out.old ≤ 2 ^ 20) }
    ensures { Joined plane_fits PlaneOk (holds_by op) a.now b.now out.old out.new result }
{
    let span = span_of(a, b);
    let mut i = 0;
    let mut j = 0;
    let mut n = 0;
    // Lengths beside the sections: without a heap a list that grows is a lent slice and how many keys it has.
    let mut na = 0;
    let mut nb = 0;
    // Indices: two lists are gone through at once, plane by plane, and each plane says how far; no iterator does.
    while i + j < a.len() + b.len() {
        let plane = turn::next(PLANE, a, i, b, j);
        let of = Operands {
            sa: &sa[..na],
            sb: &sb[..nb],
            pa: &a[i..plane.a],
            pb: &b[j..plane.b],
            base: plane.base,
            span,
        };
        n = changes(op, of, out, n);
        if out.len() < n {
            return n;
        }
        na = turn::take_in(sa, na, a, i, plane.a, plane.base, room);
        nb = turn::take_in(sb, nb, b, j, plane.b, plane.base, room);
        i = plane.a;
        j = plane.b;
    }
    n
}
