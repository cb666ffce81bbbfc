// Frames: a line of upper-case hexadecimal digits, ended by byte 0A. Inner: what the reader of maps and the writer of answers build on.
#![tactic(auto)]

ghost use Rattle.std.specs.Prelude.{◌≡◌, ◌+◌, ◌%◌, ◌≤◌, ◌<◌, length};
ghost use Rattle.frames.specs.Frames.{digit_value, four_at, line_at, one_at, three_at, digit_of};

use meaning::NUMBERS;

// The digit 0, with which every tag begins, and the last of the figures.
pub const ZERO: u8 = b'0';

const NINE: u8 = b'9';

// The first and the last of the letters that are digits.
const TEN: u8 = b'A';

const FIFTEEN: u8 = b'F';

// How many digits are figures, and how far the byte of a letter lies above its value.
const FIGURES: u8 = 10;

const LETTERS: u8 = TEN - FIGURES;

// The byte that ends a line.
pub const LINE_END: u8 = 10;

// How many values a digit has.
const BASE: u16 = 16;

// The digits of a number.
pub const DIGITS: usize = 4;

// The bytes of a tag, where the three numbers of a line begin, and the bytes of a line beside its digits: the tag and the 0A.
const TAG: usize = 2;

const SECOND_NUMBER: usize = TAG + DIGITS;

const THIRD_NUMBER: usize = SECOND_NUMBER + DIGITS;

const FRAME: usize = TAG + 1;

// The value of an upper-case digit, if the byte is one.
fn digit(b: u8) -> Option<u16>
    ensures { result ≡ digit_value b }
{
    match b {
        ZERO..=NINE => Some(u16::from(b - ZERO)),
        TEN..=FIFTEEN => Some(u16::from(b - LETTERS)),
        _ => None,
    }
}

// The number that the four digits at a place make, if they are digits.
#[tactic(auto, using(crate::proofs::FrameLaws::value_small), unfolding(crate::specs::Frames::four_at))]
fn four(s: &[u8], at: usize) -> Option<u16>
    requires { at + 4 ≤ length s.now }
    ensures { result ≡ four_at s.now at }
{
    let a = digit(s[at])?;
    let b = digit(s[at + 1])?;
    let c = digit(s[at + 2])?;
    let d = digit(s[at + 3])?;
    Some(((a * BASE + b) * BASE + c) * BASE + d)
}

// Whether a line of that tag, with so many digits behind it, stands at a place, as far as its tag and its 0A show.
#[tactic(auto, unfolding(crate::specs::Frames::line_at))]
fn line_at(s: &[u8], tag: u8, digits: usize, at: usize) -> bool
    requires { digits ≤ 12 }
    ensures { result ≡ line_at s.now tag digits at }
{
    at < s.len()
        && digits + FRAME <= s.len() - at
        && s[at] == ZERO
        && s[at + 1] == tag
        && s[at + TAG + digits] == LINE_END
}

// The number of the frame at a place, if there is such a frame.
#[tactic(auto, using(crate::proofs::FrameLaws::line_long))]
pub fn number_at(s: &[u8], tag: u8, at: usize) -> Option<u16>
    ensures { result ≡ one_at s.now tag at }
{
    if !line_at(s, tag, DIGITS, at) {
        return None;
    }
    four(s, at + TAG)
}

// The three numbers of the frame at a place, if there is such a frame.
#[tactic(auto, using(crate::proofs::FrameLaws::line_long))]
pub fn numbers_at(s: &[u8], tag: u8, at: usize) -> Option<(u16, u16, u16)>
    ensures { result ≡ three_at s.now tag at }
{
    if !line_at(s, tag, NUMBERS * DIGITS, at) {
        return None;
    }
    let a = four(s, at + TAG)?;
    let b = four(s, at + SECOND_NUMBER)?;
    let c = four(s, at + THIRD_NUMBER)?;
    Some((a, b, c))
}

// The digit of the last four bits of a number.
pub fn hex(d: usize) -> u8
    ensures { result ≡ digit_of (d % 16) }
{
    let low = (d % usize::from(BASE)) as u8;
    if low < FIGURES {
        ZERO + low
    } else {
        LETTERS + low
    }
}
