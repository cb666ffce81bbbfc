// One pass over the numbers of a list, of which nothing is asked: how many vertices stand at or below a cell, odd or even; the mask of the
// eight cells round a corner; where the vertices below a focus number end. Inner. It relies on `codes`, which counts numbers from -32768.
ghost use Rattle.std.specs.Prelude.{◌≡◌, ◌+◌, ◌*◌, ◌≤◌, map, length, drop};
ghost use Rattle.meaning.specs.Lists.{vertices, at_or_below, permitted, mask};
ghost use Rattle.asks.specs.Passes.{vertex_at, side, over, under, leading};

use meaning::{Cell, Corner, NUMBERS};

// Where a vertex lies below the corner on an axis, all eight cells may lie above it.
const ALL: u8 = u8::MAX;

// Where it lies level with the corner, those on the high side of the axis: bits 4 to 7, then 2, 3, 6 and 7, then the odd ones.
const HIGH_FOCUS: u8 = 240;

const HIGH_FIRST: u8 = 204;

const HIGH_SECOND: u8 = 170;

// The vertices of a list, three numbers each.
fn vertices_of(list: &[i16]) -> &[[i16; NUMBERS]]
    ensures { map (λ numbers. vertex_at numbers 0) result.now ≡ vertices list.now }
{
    let (vertices, _) = list.as_chunks::<NUMBERS>();
    vertices
}

// Whether the vertex stands at or below the cell on all three axes.
fn at_or_below(vertex: &[i16; NUMBERS], cell: Cell) -> bool
    ensures { result ≡ at_or_below cell (vertex_at vertex.now 0) }
{
    vertex[0] <= cell.focus && vertex[1] <= cell.first && vertex[2] <= cell.second
}

// Whether an odd number of vertices stand at or below the cell: whether it is permitted.
pub fn parity(list: &[i16], cell: Cell) -> bool
    ensures { result ≡ permitted (vertices list.now) cell }
{
    vertices_of(list)
        .iter()
        .fold(false, |odd, vertex| odd ^ at_or_below(vertex, cell))
}

// Of the eight cells round a corner with number x on an axis, those at or above the number, where `high` are those on the high side.
fn beyond(number: i16, x: i16, high: u8) -> u8
    ensures { result ≡ side number x high }
{
    if number < x {
        return ALL;
    }
    if number == x {
        return high;
    }
    0
}

// Of the eight cells round the corner, those that the vertex is at or below.
fn cells_over(vertex: &[i16; NUMBERS], corner: Corner) -> u8
    ensures { result ≡ over (vertex_at vertex.now 0) corner }
{
    let a = beyond(vertex[0], corner.focus, HIGH_FOCUS);
    let b = beyond(vertex[1], corner.first, HIGH_FIRST);
    let c = beyond(vertex[2], corner.second, HIGH_SECOND);
    a & (b & c)
}

// The mask of the permitted cells round the corner.
pub fn mask_round(list: &[i16], corner: Corner) -> u8
    ensures { result ≡ mask (permitted (vertices list.now)) corner }
{
    vertices_of(list)
        .iter()
        .fold(0, |mask, vertex| mask ^ cells_over(vertex, corner))
}

// From a place on, the first vertex whose focus number, counted from -32768, is not below the bound: its place, or where the vertices end.
pub fn past(list: &[i16], from: usize, bound: u32) -> usize
    requires { from ≤ length list.now }
    ensures { result ≡ from + 3 * leading (under bound) (vertices (drop from list.now)) }
{
    let passed = vertices_of(&list[from..])
        .iter()
        .take_while(|vertex| (codes::lift(vertex[0]) as u32) < bound)
        .count();
    from + NUMBERS * passed
}
