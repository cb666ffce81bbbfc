// The functions that C and Rust call, on slices of numbers and numbers. Each answers one number that packs document 01's values. It relies on
// `lists`, `boxes`, `asks`, `joins`, `cuts`, `nearest` and `wishes` for the answers, and on `packing` for the one number. Crate `travelmap_c` exports them,
// and include/travelmap.h declares them for C. Cells, operations and axes are numbers here, as C passes them.
#![tactic(auto)]

ghost use Rattle.meaning.specs.Numbers.{cell, corner};
ghost use Rattle.travelmap.specs.Exports.{three_axes, CheckPacked, CellPacked, CornerPacked, PlanePacked, BoxPacked};
ghost use Rattle.travelmap.specs.Exports.{JoinPacked, SectionPacked, SplitPacked, NearestPacked, DistancePacked, ManyPacked};

use meaning::{Cell, Corner};
use nearest::nearest;
use packing::{
    pack_box, pack_cell, pack_corner, pack_distance, pack_join, pack_nearest, pack_part,
    pack_section, pack_split, pack_verdict, pack_wished,
};

// Checks a list.
pub fn travelmap_check(list: &[i16]) -> u64
    ensures { CheckPacked list.now result }
{
    pack_verdict(lists::check(list))
}

// Makes the map of a box from its low and high ends.
pub fn travelmap_box(
    focus_low: i16,
    focus_high: i16,
    first_low: i16,
    first_high: i16,
    second_low: i16,
    second_high: i16,
    out: &mut [i16],
) -> u64
    ensures { BoxPacked (three_axes focus_low focus_high first_low first_high second_low second_high)
        out.old result out.new }
{
    let ends = [
        [focus_low, focus_high],
        [first_low, first_high],
        [second_low, second_high],
    ];
    pack_box(boxes::make_box(ends, out))
}

// Whether the cell is permitted.
pub fn travelmap_cell(list: &[i16], focus: i16, first: i16, second: i16) -> u64
    ensures { CellPacked list.now (cell focus first second) result }
{
    let cell = Cell {
        focus,
        first,
        second,
    };
    pack_cell(asks::cell_permitted(list, cell))
}

// The corner report.
pub fn travelmap_corner(list: &[i16], focus: i16, first: i16, second: i16) -> u64
    ensures { CornerPacked list.now (corner focus first second) result }
{
    let corner = Corner {
        focus,
        first,
        second,
    };
    pack_corner(asks::corner_report(list, corner))
}

// Where the vertices with that focus number stand in the list.
pub fn travelmap_plane(list: &[i16], focus: i16) -> u64
    ensures { PlanePacked list.now focus result }
{
    pack_part(asks::plane_ends(list, focus))
}

// Joins two maps by operation 1 union, 2 overlap, 3 first without second or 4 exclusive or.
pub fn travelmap_join(op: u32, a: &[i16], b: &[i16], out: &mut [i16]) -> u64
    ensures { JoinPacked op a.now b.now out.old result out.new }
{
    pack_join(joins::join(op, a, b, out))
}

// The permitted squares at a code of axis 0 focus, 1 first shift or 2 second shift, as pairs.
pub fn travelmap_section(list: &[i16], axis: u32, code: i16, out: &mut [i16]) -> u64
    ensures { SectionPacked list.now axis code out.old result out.new }
{
    pack_section(cuts::section(list, axis, code, out))
}

// Splits a map at a number of axis 0 focus, 1 first shift or 2 second shift: the cells below it, and the others.
pub fn travelmap_split(list: &[i16], axis: u32, at: i16, low: &mut [i16], high: &mut [i16]) -> u64
    ensures { SplitPacked list.now axis at low.old high.old
        result low.new high.new }
{
    pack_split(cuts::split(list, axis, at, low, high))
}

// The permitted cell nearest to a wish.
pub fn travelmap_nearest(list: &[i16], focus: i16, first: i16, second: i16) -> u64
    ensures { NearestPacked list.now (cell focus first second) result }
{
    let wish = Cell {
        focus,
        first,
        second,
    };
    pack_nearest(nearest(list, wish))
}

// The distance from a wish to the nearest permitted cell.
pub fn travelmap_nearest_distance(list: &[i16], focus: i16, first: i16, second: i16) -> u64
    ensures { DistancePacked list.now (cell focus first second) result }
{
    let wish = Cell {
        focus,
        first,
        second,
    };
    pack_distance(nearest(list, wish))
}

// The permitted cells nearest to the wishes, three numbers each, one cell of three codes for each wish.
pub fn travelmap_nearest_each(list: &[i16], wishes: &[i16], cells: &mut [i16]) -> u64
    ensures { ManyPacked list.now wishes.now cells.old result cells.new }
{
    pack_wished(wishes::nearest_each(list, wishes, cells))
}
