// Two's complement: a signed number of 16 bits as its bits, and back. Inner: what packed answers and the text form build on.
#![tactic(auto)]

ghost use Rattle.std.specs.Prelude.{◌≡◌};
ghost use Rattle.words.specs.Words.{signed as words_signed, word as words_word};

// The number with these bits: FFFD is -3.
pub fn signed(n: u16) -> i16
    ensures { result ≡ words_signed n }
{
    n.cast_signed()
}

// The bits of a number, as a number without sign: those of -3 are FFFD.
pub fn word(x: i16) -> u16
    ensures { result ≡ words_word x }
{
    x.cast_unsigned()
}
