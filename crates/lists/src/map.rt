// A list that has passed the check: what is asked of a travel map takes it, so that no list is checked twice.
ghost use Rattle.std.specs.Prelude.{◌≡◌, IfOk, IfErr, Err};
ghost use Rattle.meaning.specs.Verdicts.{Valid, verdict};

use meaning::Refusal;

// A list that is a travel map.
#[derive(Clone, Copy)]
pub struct TravelMap<'a> {
    pub list: &'a [i16],
    ghost passes: { verdict list.now ≡ Valid },
}

impl<'a> TravelMap<'a> {
    // The list as a travel map, or why it is none.
    pub fn of(list: &'a [i16]) -> Result<TravelMap<'a>, Refusal>
        ensures ok { IfOk result (λ m. m.list.now ≡ list.now) }
        ensures err { IfErr result (λ r. verdict list.now ≡ Err r) }
    {
        crate::check(list)?;
        Ok(TravelMap { list })
    }
}
