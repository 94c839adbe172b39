// The bytes that a word spells in hex digits. The word is lent.
#![tactic(auto)]

ghost use Rattle.hex_bytes.specs.Hex.{ReadsHex};

mod pairs; // pairs.rt: hex digits read in pairs

// The bytes that a word's hex digits spell, put at the start of `out`; the answer is how many. A word that spells none,
// or more than `out` holds, leaves it as it was.
pub fn hex_bytes(word: &[u8], out: &mut [u8]) -> Option<usize>
    ensures { ReadsHex word.now out.old result out.new }
{
    if pairs::is_dash(word) {
        return Some(0);
    }
    if out.len() < word.len() / 2 {
        return None;
    }
    if pairs::are_pairs(word) {
        pairs::fill(word, out);
        return Some(word.len() / 2);
    }
    None
}
