// The functions of `travelmap` as C calls them: one export for each, with its promise. A static library is no crate's library, so these stand apart.
// include/travelmap.h declares them.
#![tactic(auto)]

ghost use Rattle.meaning.specs.Numbers.{cell, corner};
ghost use Rattle.travelmap.specs.Exports.{three_axes, CheckPacked, CellPacked, CornerPacked, PlanePacked, BoxPacked};
ghost use Rattle.travelmap.specs.Exports.{JoinPacked, SectionPacked, SplitPacked, NearestPacked, DistancePacked, ManyPacked};

// Checks a list.
#[unsafe(no_mangle)]
pub extern "C" fn travelmap_check(list: &[i16]) -> u64
    ensures { CheckPacked list.now result }
{
    travelmap::travelmap_check(list)
}

// Makes the map of a box from its low and high ends.
#[unsafe(no_mangle)]
pub extern "C" fn travelmap_box(
    focus_low: i16,
    focus_high: i16,
    first_low: i16,
    first_high: i16,
    second_low: i16,
    second_high: i16,
    out: &mut [i16],
) -> u64
    ensures { BoxPacked (three_axes focus_low focus_high first_low first_high second_low second_high)
        out.old result out.new }
{
    travelmap::travelmap_box(
        focus_low,
        focus_high,
        first_low,
        first_high,
        second_low,
        second_high,
        out,
    )
}

// Whether the cell is permitted.
#[unsafe(no_mangle)]
pub extern "C" fn travelmap_cell(list: &[i16], focus: i16, first: i16, second: i16) -> u64
    ensures { CellPacked list.now (cell focus first second) result }
{
    travelmap::travelmap_cell(list, focus, first, second)
}

// The corner report.
#[unsafe(no_mangle)]
pub extern "C" fn travelmap_corner(list: &[i16], focus: i16, first: i16, second: i16) -> u64
    ensures { CornerPacked list.now (corner focus first second) result }
{
    travelmap::travelmap_corner(list, focus, first, second)
}

// Where the vertices with that focus number stand in the list.
#[unsafe(no_mangle)]
pub extern "C" fn travelmap_plane(list: &[i16], focus: i16) -> u64
    ensures { PlanePacked list.now focus result }
{
    travelmap::travelmap_plane(list, focus)
}

// Joins two maps by operation 1 union, 2 overlap, 3 first without second or 4 exclusive or.
#[unsafe(no_mangle)]
pub extern "C" fn travelmap_join(op: u32, a: &[i16], b: &[i16], out: &mut [i16]) -> u64
    ensures { JoinPacked op a.now b.now out.old result out.new }
{
    travelmap::travelmap_join(op, a, b, out)
}

// The permitted squares at a code of axis 0 focus, 1 first shift or 2 second shift, as pairs.
#[unsafe(no_mangle)]
pub extern "C" fn travelmap_section(list: &[i16], axis: u32, code: i16, out: &mut [i16]) -> u64
    ensures { SectionPacked list.now axis code out.old result out.new }
{
    travelmap::travelmap_section(list, axis, code, out)
}

// Splits a map at a number of axis 0 focus, 1 first shift or 2 second shift: the cells below it, and the others.
#[unsafe(no_mangle)]
pub extern "C" fn travelmap_split(
    list: &[i16],
    axis: u32,
    at: i16,
    low: &mut [i16],
    high: &mut [i16],
) -> u64
    ensures { SplitPacked list.now axis at low.old high.old
        result low.new high.new }
{
    travelmap::travelmap_split(list, axis, at, low, high)
}

// The permitted cell nearest to a wish.
#[unsafe(no_mangle)]
pub extern "C" fn travelmap_nearest(list: &[i16], focus: i16, first: i16, second: i16) -> u64
    ensures { NearestPacked list.now (cell focus first second) result }
{
    travelmap::travelmap_nearest(list, focus, first, second)
}

// The distance from a wish to the nearest permitted cell.
#[unsafe(no_mangle)]
pub extern "C" fn travelmap_nearest_distance(
    list: &[i16],
    focus: i16,
    first: i16,
    second: i16,
) -> u64
    ensures { DistancePacked list.now (cell focus first second) result }
{
    travelmap::travelmap_nearest_distance(list, focus, first, second)
}

// The permitted cells nearest to the wishes, three numbers each, one cell of three codes for each wish.
#[unsafe(no_mangle)]
pub extern "C" fn travelmap_nearest_each(list: &[i16], wishes: &[i16], cells: &mut [i16]) -> u64
    ensures { ManyPacked list.now wishes.now cells.old result cells.new }
{
    travelmap::travelmap_nearest_each(list, wishes, cells)
}
