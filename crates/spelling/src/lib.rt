// The number that a word spells in decimal digits. The word is lent.
#![tactic(auto)]

ghost use Rattle.std.specs.Prelude.{◌≡◌};
ghost use Rattle.spelling.specs.Number.{parsed_of, fits_of};

mod numeral; // numeral.rt: a decimal numeral read

// The number that a word spells. One beyond 64 bits is answered by the nearest, which every call refuses too.
pub fn number(word: &[u8]) -> Option<i64>
    ensures { result ≡ parsed_of word.now }
{
    match word {
        [] => None,
        [b'-', digits @ ..] => numeral::read(digits, true),
        digits => numeral::read(digits, false),
    }
}

// Whether the number that a word of digits spells is one of 64 bits, and not only answered by the nearest.
pub fn fits(word: &[u8]) -> bool
    ensures { result ≡ fits_of word.now }
{
    match word {
        [] => true,
        [b'-', digits @ ..] => numeral::is_within(digits, true),
        digits => numeral::is_within(digits, false),
    }
}
