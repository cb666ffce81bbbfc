// The crossing: a signed number of 16 bits as an unsigned one, by how far it lies above -32768, so that order is kept; and back. And a vertex as
// one number, its key. (Numbers as their bits, which keep no order, are those of `words`.)
// Inner: what other crates build on. It relies on the definitions of `meaning` alone.
#![tactic(auto)]

ghost use Rattle.std.specs.Prelude.{◌≡◌, true, ◌+◌, ◌*◌, ◌<◌, pos, length, get_or};
ghost use Rattle.meaning.specs.Numbers.{is_number, is_corner, steps};
ghost use Rattle.codes.specs.Lift.{lifted, lowered};
ghost use Rattle.codes.specs.Keys.{key_of, corner_at};

// What 0 is after the shift.
const ORIGIN: u16 = 1 << 15;

// The lowest corner number, -512, after the shift.
pub const LOWEST: u16 = ORIGIN - 512;

// The highest corner number, 512, after the shift.
pub const HIGHEST: u16 = ORIGIN + 512;

// How far two neighbouring lines of a plane lie apart, as keys.
pub const LINE: u32 = 1 << 11;

// How far two neighbouring planes lie apart, as keys: 1,025 lines.
pub const PLANE: u32 = 1025 * LINE;

// How far x lies above -32768.
pub fn lift(x: i16) -> u16
    ensures { result ≡ lifted x }
{
    x.abs_diff(i16::MIN)
}

// The number that lies u above -32768.
pub fn lower(u: u16) -> i16
    ensures { result ≡ lowered u }
{
    i16::MIN.wrapping_add_unsigned(u)
}

// How far the number at place i lies above -32768.
pub fn lift_at(list: &[i16], i: usize) -> u16
    requires { i < length list.now }
    ensures { result ≡ lifted (get_or list.now i (pos 0)) }
{
    lift(list[i])
}

// How far the corner number at place i lies above the lowest, -512.
pub fn steps_at(list: &[i16], i: usize) -> u32
    requires i_in_bounds { i < length list.now }
    requires corner_number { is_number (get_or list.now i (pos 0)) ≡ true }
    ensures { result ≡ steps (get_or list.now i (pos 0)) }
{
    (lift_at(list, i) - LOWEST) as u32
}

// The key of vertex i.
pub fn key_at(list: &[i16], i: usize) -> u32
    requires i_in_bounds { 3 * i + 2 < length list.now }
    requires corner { is_corner (corner_at list.now i) ≡ true }
    ensures { result ≡ key_of (corner_at list.now i) }
{
    let x = steps_at(list, 3 * i);
    let y = steps_at(list, 3 * i + 1);
    let z = steps_at(list, 3 * i + 2);
    x * PLANE + y * LINE + z
}
