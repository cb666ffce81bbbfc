// Questions about one map: is a cell permitted, what lies round a corner, which vertices stand on a plane. Each checks the list first.
// It relies on `lists` for the check, on `codes` for the crossing to unsigned numbers, on `kinds` for the kind of a mask.
#![tactic(auto)]

mod pass;

ghost use Rattle.asks.specs.Asks.{CellPromise, CornerPromise, PlanePromise, EndsPromise};

use meaning::{Cell, Corner, Refusal};

// What the corner report says: the mask of the eight cells round the corner, how many of them are permitted, and the kind.
#[derive(Clone, Copy, Debug, PartialEq, Eq)]
pub struct Report {
    pub mask: u8,
    pub how_many: u32,
    pub kind: u8,
}

// Where a part of a list stands: from start to before end.
#[derive(Clone, Copy, Debug, PartialEq, Eq)]
pub struct Ends {
    pub start: usize,
    pub end: usize,
}

// Whether the cell is permitted.
pub fn cell_permitted(list: &[i16], cell: Cell) -> Result<bool, Refusal>
    ensures { CellPromise list.now cell result }
{
    lists::check(list)?;
    Ok(pass::parity(list, cell))
}

// The mask of the permitted cells round the corner, how many they are, and the kind.
pub fn corner_report(list: &[i16], corner: Corner) -> Result<Report, Refusal>
    ensures { CornerPromise list.now corner result }
{
    lists::check(list)?;
    let mask = pass::mask_round(list, corner);
    Ok(Report {
        mask,
        how_many: kinds::count_of(mask),
        kind: kinds::kind_of(mask),
    })
}

// Where the vertices with that focus number stand in the list. Inner.
pub fn plane_ends(list: &[i16], focus: i16) -> Ends
    ensures { EndsPromise list.now focus result }
{
    if lists::check(list).is_err() {
        return Ends { start: 0, end: 0 };
    }
    let bound = codes::lift(focus) as u32;
    let start = pass::past(list, 0, bound);
    let end = pass::past(list, start, bound + 1);
    Ends { start, end }
}

// The vertices with that focus number, as a part of the list, at their place.
pub fn plane<'a>(list: &'a [i16], focus: i16) -> &'a [i16]
    ensures { PlanePromise list.now list.entry.ref_ptr focus result.now result.ref_ptr }
{
    let ends = plane_ends(list, focus);
    let start = ends.start;
    let end = ends.end;
    &list[start..end]
}
