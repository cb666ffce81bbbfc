// The kind of a corner from the mask of its eight cells, and how many of the eight are permitted. Inner: other crates call it.
#![tactic(auto)]

ghost use Rattle.std.specs.Prelude.{◌≡◌};
ghost use Rattle.std.specs.Int.Count.{ones};
ghost use Rattle.meaning.specs.Kinds.{kind};

// How many masks eight cells have.
const MASKS: usize = 256;

// The kind of each mask.
const KINDS: [u8; MASKS] = [
    0, 1, 1, 0, 1, 0, 5, 1, 1, 5, 0, 1, 0, 1, 1, 0, // mask 15
    1, 0, 5, 1, 5, 1, 7, 6, 6, 3, 3, 2, 3, 2, 4, 1, // mask 31
    1, 5, 0, 1, 6, 3, 3, 2, 5, 7, 1, 6, 3, 4, 2, 1, // mask 47
    0, 1, 1, 0, 3, 2, 4, 1, 3, 4, 2, 1, 0, 3, 3, 0, // mask 63
    1, 5, 6, 3, 0, 1, 3, 2, 5, 7, 3, 4, 1, 6, 2, 1, // mask 79
    0, 1, 3, 2, 1, 0, 4, 1, 3, 4, 0, 3, 2, 1, 3, 0, // mask 95
    5, 7, 3, 4, 3, 4, 0, 3, 7, 8, 4, 7, 4, 7, 3, 5, // mask 111
    1, 6, 2, 1, 2, 1, 3, 0, 4, 7, 3, 5, 3, 5, 6, 1, // mask 127
    1, 6, 5, 3, 5, 3, 7, 4, 0, 3, 1, 2, 1, 2, 6, 1, // mask 143
    5, 3, 7, 4, 7, 4, 8, 7, 3, 0, 4, 3, 4, 3, 7, 5, // mask 159
    0, 3, 1, 2, 3, 0, 4, 3, 1, 4, 0, 1, 2, 3, 1, 0, // mask 175
    1, 2, 6, 1, 4, 3, 7, 5, 2, 3, 1, 0, 3, 6, 5, 1, // mask 191
    0, 3, 3, 0, 1, 2, 4, 3, 1, 4, 2, 3, 0, 1, 1, 0, // mask 207
    1, 2, 4, 3, 6, 1, 7, 5, 2, 3, 3, 6, 1, 0, 5, 1, // mask 223
    1, 4, 2, 3, 2, 3, 3, 6, 6, 7, 1, 5, 1, 5, 0, 1, // mask 239
    0, 1, 1, 0, 1, 0, 5, 1, 1, 5, 0, 1, 0, 1, 1, 0, // mask 255
];

// The kind of a corner with that mask, 0 to 8.
pub fn kind_of(mask: u8) -> u8
    ensures { result ≡ kind mask }
{
    KINDS[mask as usize]
}

// How many of the eight cells of that mask are permitted.
pub fn count_of(mask: u8) -> u32
    ensures { result ≡ ones mask }
{
    mask.count_ones()
}
