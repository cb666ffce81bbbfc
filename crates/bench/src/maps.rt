// The lists of the worked examples that are too long to stand where they are asked.
ghost use Rattle.std.specs.Prelude.{◌+◌, ◌*◌, ◌≤◌, ◌<◌, length};

// The numbers of the list of a box, of one less a vertex, of two cells apart, of two that touch in an edge, and of four vertices.
pub const BOX: usize = 24;

pub const LESS_ONE: usize = 21;

pub const APART: usize = 48;

pub const TOUCHING: usize = 36;

const FOUR: usize = 12;

// The most slabs that are made, the numbers of the list of a slab, and of so many.
pub const MOST_SLABS: usize = 12;

pub const SLAB: usize = 24;

pub const SLABS: usize = 288;

// The numbers of two vertices.
const TWO: usize = 6;

// Writes numbers to a list, from a place on.
fn put(numbers: &[i16], at: usize, list: &mut [i16])
    requires { at + length numbers.now ≤ length list.old }
{
    list[at..at + numbers.len()].copy_from_slice(numbers);
}

// The unit box without its last vertex, (1,1,1).
pub fn box_less_one() -> [i16; LESS_ONE] {
    let mut list = [0i16; LESS_ONE];
    put(&[0, 0, 0, 0, 0, 1, 0, 1, 0, 0, 1, 1], 0, &mut list);
    put(&[1, 0, 0, 1, 0, 1, 1, 1, 0], FOUR, &mut list);
    list
}

// The cells (-1,0,0) and (1,0,0).
pub fn two_apart() -> [i16; APART] {
    let mut list = [0i16; APART];
    put(&[-1, 0, 0, -1, 0, 1, -1, 1, 0, -1, 1, 1], 0, &mut list);
    put(&[0, 0, 0, 0, 0, 1, 0, 1, 0, 0, 1, 1], FOUR, &mut list);
    put(&[1, 0, 0, 1, 0, 1, 1, 1, 0, 1, 1, 1], 2 * FOUR, &mut list);
    put(&[2, 0, 0, 2, 0, 1, 2, 1, 0, 2, 1, 1], 3 * FOUR, &mut list);
    list
}

// The cells (0,0,0) and (1,1,0).
pub fn touching() -> [i16; TOUCHING] {
    let mut list = [0i16; TOUCHING];
    put(&[0, 0, 0, 0, 0, 1, 0, 1, 0, 0, 1, 1], 0, &mut list);
    put(&[1, 0, 0, 1, 0, 1, 1, 2, 0, 1, 2, 1], FOUR, &mut list);
    put(&[2, 1, 0, 2, 1, 1, 2, 2, 0, 2, 2, 1], 2 * FOUR, &mut list);
    list
}

// Writes the two vertices with these numbers and second shifts 0 and 1 to a list, from a place on.
fn put_two(focus: usize, first: usize, at: usize, list: &mut [i16])
    requires { (focus ≤ 512) × (first ≤ 512) × (at + 6 ≤ length list.old) }
{
    let x = focus as i16;
    let y = first as i16;
    put(&[x, y, 0, x, y, 1], at, list);
}

// Writes the vertices of n slabs at their end number i: along focus, which goes from 2i to 2i + 1, first shift from 0 to 2n and second shift from
// 0 to 1; or crosswise, with focus and first shift exchanged.
fn put_end(n: usize, i: usize, crosswise: bool, list: &mut [i16])
    requires { (n ≤ 12) × (i < 2 * n) × (24 * n ≤ length list.old) }
{
    if crosswise {
        put_two(0, i, TWO * i, list);
        put_two(2 * n, i, 2 * TWO * n + TWO * i, list);
    } else {
        put_two(i, 0, 2 * TWO * i, list);
        put_two(i, 2 * n, 2 * TWO * i + TWO, list);
    }
}

// Writes n slabs, along focus or crosswise.
pub fn put_slabs(n: usize, crosswise: bool, list: &mut [i16])
    requires { (n ≤ 12) × (24 * n ≤ length list.old) }
{
    for i in 0..2 * n {
        put_end(n, i, crosswise, list);
    }
}
