// One line for each question: the example's number, what is asked, and the answer. What the output does not take is let go. Cells are three numbers, as
// the functions for C take them.
use crate::fields::{BYTE, FIRST, FOCUS, HALF, HOW_MANY, KIND, NUMBER, PLACE, WORD, code};
use crate::say::Spaced;

// The check of a list: the number and the place.
pub fn check_line(rt: &impl Print, example: &str, list: &[i16]) {
    let answer = travelmap::travelmap_check(list);
    let _ = println!(rt;
        "{example} check {} {}",
        answer >> NUMBER,
        (answer >> PLACE) & WORD
    );
}

// Whether a cell is permitted.
pub fn cell_line(
    rt: &impl Print,
    example: &str,
    list: &[i16],
    focus: i16,
    first: i16,
    second: i16,
) {
    let said = match travelmap::travelmap_cell(list, focus, first, second) {
        0 => "no",
        1 => "yes",
        _ => "refused",
    };
    let _ = println!(rt; "{example} cell {focus} {first} {second} {said}");
}

// The corner report: the number, the mask, how many cells, the kind.
pub fn corner_line(
    rt: &impl Print,
    example: &str,
    list: &[i16],
    focus: i16,
    first: i16,
    second: i16,
) {
    let answer = travelmap::travelmap_corner(list, focus, first, second);
    let number = answer >> NUMBER;
    let mask = answer & BYTE;
    let many = (answer >> HOW_MANY) & BYTE;
    let kind = (answer >> KIND) & BYTE;
    let _ = println!(rt;
        "{example} corner {focus} {first} {second}: {number} {mask} {many} {kind}"
    );
}

// The plane query: where the part starts, and its length; and the part itself.
pub fn plane_line(rt: &impl Print, example: &str, list: &[i16], focus: i16) {
    let answer = travelmap::travelmap_plane(list, focus);
    let start = answer >> PLACE;
    let length = answer & HALF;
    let part = Spaced(asks::plane(list, focus));
    let _ = println!(rt; "{example} plane {focus}: {start} {length}:{part}");
}

// The cell nearest to a wish: the number and the cell; and on a line of its own the number and the distance.
pub fn nearest_lines(
    rt: &impl Print,
    example: &str,
    list: &[i16],
    focus: i16,
    first: i16,
    second: i16,
) {
    let answer = travelmap::travelmap_nearest(list, focus, first, second);
    let number = answer >> NUMBER;
    let cell = Spaced(&[code(answer >> FOCUS), code(answer >> FIRST), code(answer)]);
    let _ = println!(rt; "{example} nearest {focus} {first} {second}: {number}{cell}");
    let far = travelmap::travelmap_nearest_distance(list, focus, first, second);
    let _ = println!(rt;
        "{example} distance {focus} {first} {second}: {} {}",
        far >> NUMBER,
        far & HALF
    );
}
