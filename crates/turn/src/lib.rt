// Inner: what one turn of a sweep does with its operands. A sweep reads two rising lists of keys plane by plane. A turn finds the next plane and takes
// it into the sections of the two operands.
#![tactic(auto)]

ghost use Rattle.std.specs.Prelude.{◌≡◌, ◌+◌, ◌-◌, ◌≤◌, ◌<◌, ◌^◌, length, take, drop};
ghost use Rattle.meaning.specs.Counting.{All};
ghost use Rattle.rising.specs.Merged.{From};
ghost use Rattle.turn.specs.Turn.{Least, Ran, Advanced, Taken, plane_of};

// The least key that is left of a from place i on and of b from place j on.
fn least(a: &[u32], i: usize, b: &[u32], j: usize) -> u32
    requires i_in_bounds { (i ≤ length a.now) × (j ≤ length b.now) }
    requires j_in_bounds { i + j < length a.now + length b.now }
    requires from { From 0 a.now × From 0 b.now }
    ensures { Least a.now i b.now j result }
{
    if i == a.len() {
        return b[j];
    }
    if j == b.len() {
        return a[i];
    }
    a[i].min(b[j])
}

// The first place from i on whose key is not below a limit, or the length.
fn run(keys: &[u32], i: usize, limit: u32) -> usize
    requires i_in_bounds { i ≤ length keys.now }
    requires from { From 0 keys.now }
    ensures { Ran keys.now i limit result }
{
    i + keys[i..].iter().take_while(|key| **key < limit).count()
}

// Takes the keys of a plane, from place i to e, into a section of n keys, and answers how many keys it has then; room is working room.
fn take_some(
    sec: &mut [u32],
    n: usize,
    keys: &[u32],
    i: usize,
    e: usize,
    base: u32,
    room: &mut [u32],
) -> usize
    requires n_in_bounds { (n ≤ length sec.old) × (i ≤ e) × (e ≤ length keys.now) }
    requires i_in_bounds { (n + (e - i) ≤ length sec.old) × (n + (e - i) ≤ length room.old) }
    requires above { All (λ k. base ≤ k) (plane_of keys.now i e) }
    requires fits { All (λ k. k < 2 ^ 32) (plane_of keys.now i e) × All (λ k. k < 2 ^ 32) (take n sec.old) }
    ensures { Taken sec.old n (plane_of keys.now i e) base sec.new result }
{
    let m = rising::merge(&sec[..n], &keys[i..e], base, room);
    rising::put(&room[..m], 0, sec);
    m
}

// The same; where the plane has no keys the section stays as it is. A section that grows is, without a heap, a lent slice and how many keys it has.
pub fn take_in(
    sec: &mut [u32],
    n: usize,
    keys: &[u32],
    i: usize,
    e: usize,
    base: u32,
    room: &mut [u32],
) -> usize
    requires n_in_bounds { (n ≤ length sec.old) × (i ≤ e) × (e ≤ length keys.now) }
    requires i_in_bounds { (n + (e - i) ≤ length sec.old) × (n + (e - i) ≤ length room.old) }
    requires above { All (λ k. base ≤ k) (plane_of keys.now i e) }
    requires fits { All (λ k. k < 2 ^ 32) (plane_of keys.now i e) × All (λ k. k < 2 ^ 32) (take n sec.old) }
    ensures { Taken sec.old n (plane_of keys.now i e) base sec.new result }
{
    if i == e {
        return n;
    }
    take_some(sec, n, keys, i, e, base, room)
}

// Where the next plane of two operands begins, and where each operand leaves it.
#[derive(Clone, Copy)]
pub struct Plane {
    pub base: u32,
    pub a: usize,
    pub b: usize,
}

// The next plane of a from place i on and of b from place j on, planes being a stride apart.
pub fn next(stride: u32, a: &[u32], i: usize, b: &[u32], j: usize) -> Plane
    requires stride_nonzero { (0 < stride) × (stride ≤ 2099200) }
    requires i_in_bounds { (i ≤ length a.now) × (j ≤ length b.now) }
    requires j_in_bounds { i + j < length a.now + length b.now }
    requires from { From 0 a.now × From 0 b.now }
    requires all { All (λ k. k < 2151680000) a.now × All (λ k. k < 2151680000) b.now }
    ensures { Advanced stride a.now i b.now j result.base result.a result.b }
{
    let key = least(a, i, b, j);
    let base = key - key % stride;
    Plane {
        base,
        a: run(a, i, base + stride),
        b: run(b, j, base + stride),
    }
}
