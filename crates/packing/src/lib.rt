// A short word as a number of 64 bits.
#![tactic(auto)]

ghost use Rattle.std.specs.Prelude.{◌≡◌};
ghost use Rattle.packing.specs.Packing.{packed_of};

// A word of one to eight bytes that a name may have, as a number; 0 for any other.
pub fn packed(word: &[u8]) -> u64
    ensures { result ≡ packed_of word.now }
{
    if bytes_le::WORD_BYTES < word.len() {
        return 0;
    }
    if name::is_asked(word) {
        bytes_le::u64_at(word, 0)
    } else {
        0
    }
}
