// Inner: rows of bits. A row has a bit for each number of a line, from a first one on: whether an odd number of keys so far lie at or below it. Two
// rows stand for the sections of two operands and two for what a plane turns of them; where that changes the operation, keys are put out.
#![tactic(auto)]

ghost use Rattle.std.specs.Prelude.{◌≡◌, true, ℕ, ◌+◌, ◌*◌, ◌≤◌, ◌<◌, ◌^◌, length, drop};
ghost use Rattle.meaning.specs.Counting.{All};
ghost use Rattle.rising.specs.Merged.{From};
ghost use Rattle.rows.specs.Rows.{holds_by, change, bit, Flipped, TookLine, PutOnes, PutLine};

// The numbers of the operations; any other is exclusive or. They are numbers here, and no enum: the wrong program joins/operation_five must be able
// to hand on a 5.
const UNION: u32 = 1;

const OVERLAP: u32 = 2;

const WITHOUT: u32 = 3;

// The bits of a word, and the place of the last.
pub const BITS: usize = u64::BITS as usize;

const LAST: u32 = u64::BITS - 1;

// What holds of 64 cells by the operation with that number: 1 union, 2 overlap, 3 first without second, else exclusive or.
fn word(op: u32, x: u64, y: u64) -> u64
    ensures { (k : ℕ) → bit result k ≡ holds_by op (bit x k) (bit y k) }
{
    if op == UNION {
        return x | y;
    }
    if op == OVERLAP {
        return x & y;
    }
    if op == WITHOUT {
        return x ^ (x & y);
    }
    x ^ y
}

// What changes of 64 cells by the operation where u turns the memberships x, and v the memberships y.
fn changed(op: u32, x: u64, y: u64, u: u64, v: u64) -> u64
    ensures { (k : ℕ) → bit result k ≡ change op (bit x k) (bit y k) (bit u k) (bit v k) }
{
    if u == 0 && v == 0 {
        return 0;
    }
    word(op, x ^ u, y ^ v) ^ word(op, x, y)
}

// Turns every bit of a row from a place on.
fn flip(row: &mut [u64], at: usize)
    requires { at < 64 * length row.old }
    ensures { Flipped at row.old row.new }
{
    let first = at / BITS;
    row[first] ^= u64::MAX << (at % BITS);
    for word in &mut row[first + 1..] {
        *word ^= u64::MAX;
    }
}

// Takes the keys from place i on that are below a limit into a row that begins at start, and answers the place behind them.
pub fn take_line(row: &mut [u64], keys: &[u32], i: usize, start: u32, limit: u32) -> usize
    requires i_in_bounds { i ≤ length keys.now }
    requires from { From 0 keys.now }
    requires all { All (λ k. (start ≤ k) × (k < limit → k < start + 64 * length row.old)) (drop i keys.now) }
    ensures { TookLine keys.now i start limit row.old row.new result }
{
    // By places: a count beside an iterator makes a join some 6 % slower.
    for e in i..keys.len() {
        let key = keys[e];
        if limit <= key {
            return e;
        }
        flip(row, (key - start) as usize);
    }
    keys.len()
}

// Puts out, behind n keys, a key for each one of a word, from a first key on, and answers how many keys that makes, whether they fit or not. A list that
// grows is, without a heap, a lent slice and how many keys it has.
fn put_ones(ones: u64, at: u32, out: &mut [u32], n: usize) -> usize
    requires { (at + 64 ≤ 2 ^ 32) × (n ≤ 2 ^ 62) }
    ensures { PutOnes ones at out.old n out.new result }
{
    let mut left = ones;
    let mut put = n;
    // A walk along the ones of a word: they have no iterator.
    while left != 0 {
        let place = left.trailing_zeros();
        if put < out.len() {
            out[put] = at + place;
        }
        put += 1;
        left ^= 1 << place;
    }
    put
}

// Puts out, behind n keys, the ends of the stretches of a line that begins at start where the change of the operation is another than it was
// last, which it replaces; answers how many keys that makes.
pub fn put_line(
    op: u32,
    ra: &[u64],
    rb: &[u64],
    ca: &[u64],
    cb: &[u64],
    last: &mut [u64],
    start: u32,
    out: &mut [u32],
    n: usize,
) -> usize
    requires same_lengths { (length ra.now ≡ length last.old) × (length rb.now ≡ length last.old)
        × (length ca.now ≡ length last.old) × (length cb.now ≡ length last.old) }
    requires last_bound { (start + 64 * length last.old ≤ 2 ^ 32) × (n ≤ 2 ^ 61) }
    ensures { PutLine op ra.now rb.now ca.now cb.now last.old start out.old n last.new out.new result }
{
    let mut put = n;
    let mut carry: u64 = 0;
    for (w, word) in last.iter_mut().enumerate() {
        let now = changed(op, ra[w], rb[w], ca[w], cb[w]);
        let turned = now ^ *word;
        *word = now;
        let ones = turned ^ (turned << 1) ^ carry;
        put = put_ones(ones, start + (BITS * w) as u32, out, put);
        carry = turned >> LAST;
    }
    put
}

// Whether no bit of a row is set.
pub fn is_zero(row: &[u64]) -> bool
    ensures { result ≡ true → All (λ w. w ≡ 0) row.now }
{
    row.iter().all(|word| *word == 0)
}
