// The worked examples of document 01, asked of the functions that C calls: a line for each answer, with the example's number and what is asked
// before it. The file stdout beside src/ has what document 01 says. It relies on `travelmap` for the answers, and on `asks` for the part of a plane.
#![tactic(auto)]

mod fields;
mod line;
mod made;
mod maps;
mod say;

ghost use Rattle.std.specs.Prelude.{◌≤◌};

use line::{cell_line, check_line, corner_line, nearest_lines, plane_line};
use made::{Operation, box_line, join_line, section_line, split_line};
use maps::{APART, BOX, MOST_SLABS, SLAB, SLABS, TOUCHING};

// The numbers of the longest list, and of that of example 11's overlap, which has 968 vertices.
const LONGEST: usize = 3072;

const OVERLAPPED: usize = 2904;

// The most slabs whose overlap fits, crosswise.
const FITTING: usize = 11;

// The axes.
const FOCUS: u32 = 0;

const FIRST_SHIFT: u32 = 1;

const SECOND_SHIFT: u32 = 2;

// The lowest number.
const LOWEST: i16 = -512;

// The empty list.
fn example_1(rt: &impl Print) {
    let empty = [0i16; 0];
    check_line(rt, "1", &empty);
    cell_line(rt, "1", &empty, 0, 0, 0);
    nearest_lines(rt, "1", &empty, 0, 0, 0);
}

// Lists with odd lines: one vertex, four on a plane, the unit box without its last vertex.
fn examples_2_to_4(rt: &impl Print) {
    check_line(rt, "2", &[0, 0, 0]);
    check_line(rt, "3", &[0, 0, 0, 0, 0, 1, 0, 1, 0, 0, 1, 1]);
    let map = maps::box_less_one();
    check_line(rt, "4", &map);
}

// What is asked of the map of the whole range.
fn whole_range(rt: &impl Print, map: &[i16]) {
    check_line(rt, "5", map);
    cell_line(rt, "5", map, -512, -512, -512);
    cell_line(rt, "5", map, 511, 511, 511);
    cell_line(rt, "5", map, 512, 0, 0);
    cell_line(rt, "5", map, 511, 0, 0);
    cell_line(rt, "5", map, -513, 0, 0);
    cell_line(rt, "5", map, -512, 0, 0);
    nearest_lines(rt, "5", map, 512, 0, 0);
    nearest_lines(rt, "5", map, -513, 0, 0);
}

// The whole range.
fn example_5(rt: &impl Print) {
    let mut map = [0i16; BOX];
    box_line(rt, "5", [[-512, 512], [-512, 512], [-512, 512]], &mut map);
    whole_range(rt, &map);
}

// Two cells apart.
fn examples_6_and_7(rt: &impl Print) {
    let map = maps::two_apart();
    check_line(rt, "6", &map);
    cell_line(rt, "6", &map, -1, 0, 0);
    cell_line(rt, "6", &map, 0, 0, 0);
    cell_line(rt, "6", &map, 1, 0, 0);
    nearest_lines(rt, "6", &map, 0, 0, 0);
    cell_line(rt, "7", &map, 32767, 0, 0);
    nearest_lines(rt, "7", &map, 32767, 0, 0);
}

// Two cells that touch in an edge.
fn example_8(rt: &impl Print) {
    let map = maps::touching();
    check_line(rt, "8", &map);
    cell_line(rt, "8", &map, 0, 0, 0);
    cell_line(rt, "8", &map, 1, 1, 0);
    corner_line(rt, "8", &map, 1, 1, 0);
    plane_line(rt, "8", &map, 1);
}

// The slab of unit shifts between two focus numbers, and what it says at focus 2.
fn slab_lines(rt: &impl Print, low: i16, high: i16, map: &mut [i16]) {
    box_line(rt, "9", [[low, high], [0, 1], [0, 1]], map);
    cell_line(rt, "9", map, 2, 0, 0);
    corner_line(rt, "9", map, 2, 0, 0);
}

// The union and the overlap of two maps, and what they say at focus 2.
fn joined_lines(rt: &impl Print, lower: &[i16], upper: &[i16]) {
    let mut out = [0i16; BOX];
    join_line(rt, "9", Operation::Union, lower, upper, &mut out);
    corner_line(rt, "9", &out, 2, 0, 0);
    plane_line(rt, "9", &out, 2);
    join_line(rt, "9", Operation::Overlap, lower, upper, &mut out);
    cell_line(rt, "9", &out[..0], 2, 0, 0);
}

// Two slabs that meet at focus 2: each, their union, their overlap.
fn example_9(rt: &impl Print) {
    let mut lower = [0i16; BOX];
    slab_lines(rt, 0, 2, &mut lower);
    let mut upper = [0i16; BOX];
    slab_lines(rt, 2, 4, &mut upper);
    joined_lines(rt, &lower, &upper);
}

// Maps exclusive or themselves.
fn example_10(rt: &impl Print) {
    let mut out = [0i16; APART];
    let apart = maps::two_apart();
    join_line(rt, "10", Operation::Exclusive, &apart, &apart, &mut out);
    let touching = maps::touching();
    join_line(
        rt,
        "10",
        Operation::Exclusive,
        &touching,
        &touching,
        &mut out,
    );
    let empty = [0i16; 0];
    join_line(rt, "10", Operation::Exclusive, &empty, &empty, &mut out);
}

// So many slabs overlapped with as many crosswise.
fn slabs_line(rt: &impl Print, n: usize, out: &mut [i16])
    requires { n ≤ 12 }
{
    let mut along = [0i16; SLABS];
    let mut across = [0i16; SLABS];
    maps::put_slabs(n, false, &mut along);
    maps::put_slabs(n, true, &mut across);
    join_line(
        rt,
        "11",
        Operation::Overlap,
        &along[..SLAB * n],
        &across[..SLAB * n],
        out,
    );
}

// The most slabs whose overlap fits, and one more.
fn example_11(rt: &impl Print) {
    let mut out = [0i16; LONGEST];
    slabs_line(rt, FITTING, &mut out);
    check_line(rt, "11", &out[..OVERLAPPED]);
    slabs_line(rt, MOST_SLABS, &mut out);
}

// The last number passes, the one after it does not; a vertex given twice.
fn example_12(rt: &impl Print) {
    check_line(rt, "12", &[512, 512, 512]);
    check_line(rt, "12", &[513, 512, 512]);
    check_line(rt, "12", &[0, 0, 0, 0, 0, 0]);
}

// Sections of the printed map, which is the cell (-1,0,0).
fn example_13(rt: &impl Print) {
    let mut map = [0i16; BOX];
    box_line(rt, "13", [[-1, 0], [0, 1], [0, 1]], &mut map);
    let mut out = [0i16; BOX];
    section_line(rt, "13", &map, FOCUS, -1, &mut out);
    section_line(rt, "13", &map, FOCUS, 0, &mut out);
}

// Splits at the lowest number.
fn example_14(rt: &impl Print) {
    let map = maps::touching();
    let mut low = [0i16; TOUCHING];
    let mut high = [0i16; TOUCHING];
    split_line(rt, "14", &map, FOCUS, LOWEST, &mut low, &mut high);
    split_line(rt, "14", &map, FIRST_SHIFT, LOWEST, &mut low, &mut high);
    split_line(rt, "14", &map, SECOND_SHIFT, LOWEST, &mut low, &mut high);
}

// Every example, in order.
fn main(rt: HostRuntime) {
    example_1(&rt);
    examples_2_to_4(&rt);
    example_5(&rt);
    examples_6_and_7(&rt);
    example_8(&rt);
    example_9(&rt);
    example_10(&rt);
    example_11(&rt);
    example_12(&rt);
    example_13(&rt);
    example_14(&rt);
}
