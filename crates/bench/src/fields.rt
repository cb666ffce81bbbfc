// The parts of an answer, as include/travelmap.h says: where each begins, and how wide it is.

// Where a part begins: the number; the place, or where a plane's part starts, or the focus of a cell; the kind, the second count, or the first shift of a
// cell; how many cells. What is not named here begins at 0.
pub const NUMBER: u32 = 56;

pub const PLACE: u32 = 32;

pub const FOCUS: u32 = 32;

pub const KIND: u32 = 16;

pub const OTHERS: u32 = 16;

pub const FIRST: u32 = 16;

pub const HOW_MANY: u32 = 8;

// The bits of each part of a corner report, of a place, a count or a code, and of a distance or a length.
pub const BYTE: u64 = 0xFF;

pub const WORD: u64 = 0xFFFF;

pub const HALF: u64 = 0xFFFF_FFFF;

// The code whose bits in two's complement are the lowest 16.
pub fn code(bits: u64) -> i16 {
    ((bits & WORD) as u16).cast_signed()
}
