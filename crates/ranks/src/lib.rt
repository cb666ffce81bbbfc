// What the codes of one axis count in a rank, and from where to where a map lies on it. Inner: what the search for the nearest cell builds on.
// A rank is one number for the distance of a cell and, among equals, its focus, first and second shift: the sum of one value for each axis.
#![tactic(auto)]

ghost use Rattle.std.specs.Prelude.{◌≡◌, ℕ, ◌<◌, ◌≤◌, length, get_or};
ghost use Rattle.keys.specs.Parts.{axis_at, part_on};
ghost use Rattle.ranks.specs.Extents.{axis_codes, Extends};

// How many codes an axis has.
pub const END: u32 = 1024;

// The lowest code as a wish gives it: how far -512 lies above -32768.
const LOWEST: u32 = codes::LOWEST as u32;

// What one unit of distance counts in a rank: more than all codes together.
pub const DISTANCE: u64 = 1073741824;

// How the codes of an axis count: the wish as a code from 0, what one code counts as distance, and what it counts among equals. The values of codes fit.
#[derive(Clone, Copy)]
pub struct Scale {
    pub wish: u32,
    pub weight: u64,
    pub place: u64,
    pub ghost sound: { (wish < axis_codes) × (0 < weight) × (weight ≤ 16) × (place ≤ 1048576) },
}

impl Scale {
    ghost use Rattle.ranks.specs.Values.{Near, Valued, behind, way, Brought};

    // The scale of an axis for a wish, of which all cells lie from low to below high: the wish is brought to the nearest code there.
    pub fn bring(wish: u32, low: u32, high: u32, weight: u64, place: u64) -> Self
        requires low_lt_high { (low < high) × (high ≤ axis_codes) }
        requires weight_nonzero { (0 < weight) × (weight ≤ 16) × (place ≤ 1048576) }
        ensures { Brought wish low high weight place result }
    {
        let code = Self::near(wish, LOWEST + low, LOWEST + high) - LOWEST;
        Scale {
            wish: code,
            weight,
            place,
        }
    }

    // The code from low to below high that lies nearest to the wish.
    pub fn near(wish: u32, low: u32, high: u32) -> u32
        requires { low < high }
        ensures { Near wish low high result }
    {
        wish.clamp(low, high - 1)
    }

    // What a code counts in a rank.
    #[tactic(auto, using(crate::proofs::Costs::valued))]
    pub fn value_at(self, code: u32) -> u64
        requires { code < axis_codes }
        ensures { Valued self code result }
    {
        let cost = self.weight * u64::from(self.wish.abs_diff(code));
        cost * DISTANCE + u64::from(code) * self.place
    }

    // The code just behind a number as seen from the wish.
    fn code_behind(self, number: u32) -> u32
        ensures { result ≡ behind self.wish number }
    {
        if self.wish < number {
            number
        } else {
            number.saturating_sub(1)
        }
    }

    // What the code just behind a number counts in a rank.
    pub fn value_behind(self, number: u32) -> u64
        requires { number < axis_codes }
        ensures { Valued self (behind self.wish number) result }
    {
        self.value_at(self.code_behind(number))
    }

    // What the way from a wish to the scale's code counts as distance.
    pub fn beyond(self, wish: u32) -> u64
        requires { wish < 65536 }
        ensures { result ≡ way wish self }
    {
        self.weight * u64::from(wish.abs_diff(self.wish + LOWEST))
    }
}

// How the codes of the three axes count.
#[derive(Clone, Copy)]
pub struct Scales {
    pub focus: Scale,
    pub first: Scale,
    pub second: Scale,
}

// The lowest and the highest number on an axis, counted from 0.
#[derive(Clone, Copy)]
pub struct Extent {
    pub low: u32,
    pub high: u32,
}

// From where to where the parts of some keys lie on an axis, which is a number as `keys::part_on` takes it: a wish outside is first brought to there,
// so that the search can stop early.
pub fn extend(keys: &[u32], axis: u32) -> Extent
    requires { (i : ℕ) → i < length keys.now → part_on (axis_at axis) (get_or keys.now i 0) ≤ axis_codes }
    ensures { Extends (axis_at axis) keys.now result }
{
    let mut low = END;
    let mut high = 0;
    for key in keys {
        let number = keys::part_on(*key, axis);
        low = low.min(number);
        high = high.max(number);
    }
    Extent { low, high }
}
