// The list of a box (document 01, "What can be asked"). It relies on `codes` for the crossing to unsigned numbers.
#![tactic(auto)]

ghost use Rattle.std.specs.Prelude.{◌≡◌};
ghost use Rattle.meaning.specs.Lists.{numbers};
ghost use Rattle.boxes.specs.Box.{good_end, good_ends, box_vertices, BoxMade};

use codes::{HIGHEST, LOWEST};

// Why no box is made.
#[derive(Clone, Copy, Debug, PartialEq, Eq)]
pub enum BoxError {
    // An end is out of range, or a high end is not above its low end.
    BadEnds,
    // Fewer than 24 numbers are lent.
    NoRoom,
}

// The numbers of a box's list.
const BOX_NUMBERS: usize = 24;

// Whether an axis may have these ends: low a code, high above it and at most the last corner number.
fn good_end(low: i16, high: i16) -> bool
    ensures { result ≡ good_end low high }
{
    let from = codes::lift(low);
    let to = codes::lift(high);
    LOWEST <= from && from < HIGHEST && from < to && to <= HIGHEST
}

// Whether all three axes may have these ends.
fn good_ends(ends: [[i16; 2]; 3]) -> bool
    ensures { result ≡ good_ends ends }
{
    ends.iter().all(|[low, high]| good_end(*low, *high))
}

// The numbers of the eight corners, in the order of a list.
fn eight_corners(ends: [[i16; 2]; 3]) -> [i16; BOX_NUMBERS]
    ensures { result ≡ numbers (box_vertices ends) }
{
    let [[a, aa], [b, bb], [d, dd]] = ends;
    [
        a, b, d, a, b, dd, a, bb, d, a, bb, dd, aa, b, d, aa, b, dd, aa, bb, d, aa, bb, dd,
    ]
}

// Makes the map of the box with these low and high ends on each axis: the eight vertices stand at the front of the result.
pub fn make_box(ends: [[i16; 2]; 3], out: &mut [i16]) -> Result<(), BoxError>
    ensures { BoxMade ends out.old result out.new }
{
    if !good_ends(ends) {
        return Err(BoxError::BadEnds);
    }
    if out.len() < BOX_NUMBERS {
        return Err(BoxError::NoRoom);
    }
    out[..BOX_NUMBERS].copy_from_slice(&eight_corners(ends));
    Ok(())
}
