// The names of a directory, one after the other in its bytes, and whether one of them stands twice.
#![tactic(auto)]

ghost use Rattle.std.specs.Prelude.{◌≡◌, ◌<◌, ◌&&◌, ◌++◌};
ghost use Rattle.bytes_le.specs.Le.{word_bytes, bytes_of};
ghost use Rattle.roll.specs.inner.Marks.{slots, slot_of, made, with_mark};
ghost use Rattle.roll.specs.Directory.{names_in, among, twice};

use bytes_le::WORD_BYTES;

// The bytes of a name with its padding.
pub const NAME_BYTES: usize = 16;

// How many marks the search for a name that stands twice keeps.
const SLOTS: usize = 4093;

// How many of them stand in a word, a binary digit each, and in how many words all.
const DIGITS: usize = 64;

const MARK_WORDS: usize = 64;

// Whether the name with these two words stands in a directory.
pub fn holds(d: &[u8], low: u64, high: u64) -> bool
    ensures { result ≡ among (bytes_of word_bytes low ++ bytes_of word_bytes high) (names_in d.now) }
{
    d.chunks_exact(NAME_BYTES)
        .any(|x| name::stands_at(x, 0, low, high))
}

// The number of a mark, from a name's two words, so that one name always has the same.
fn slot(low: u64, high: u64) -> usize
    ensures { (result ≡ slot_of low high) × (result < slots) }
{
    (std::num::wrapping_add_u64(low, high) % SLOTS as u64) as usize
}

// Whether a mark has been made.
fn is_made(marks: &[u64; MARK_WORDS], k: usize) -> bool
    requires { k < slots }
    ensures { result ≡ made marks.now k }
{
    let word = marks[k / DIGITS];
    (word >> ((k % DIGITS) as u64)) % 2 == 1
}

// Makes a mark; those made before stay.
fn make(marks: &mut [u64; MARK_WORDS], k: usize)
    requires { k < slots }
    ensures { marks.new ≡ with_mark marks.old k }
{
    let at = k / DIGITS;
    marks[at] |= 1u64 << ((k % DIGITS) as u64);
}

// Whether a name stands in the directory, which is looked through only where its mark has been made.
fn again(marked: bool, d: &[u8], low: u64, high: u64) -> bool
    ensures { result ≡ (marked && among (bytes_of word_bytes low ++ bytes_of word_bytes high)
        (names_in d.now)) }
{
    marked && holds(d, low, high)
}

// Whether some name of a directory stands twice: from the last name on, each makes its mark, and is compared with those
// after it where that was made before.
pub fn doubled(d: &[u8]) -> bool
    ensures { result ≡ twice (names_in d.now) }
{
    let mut marks = [0; MARK_WORDS];
    for i in (0..d.len() / NAME_BYTES).rev() {
        let at = NAME_BYTES * i;
        let own = &d[at..at + NAME_BYTES];
        let low = bytes_le::u64_at(own, 0);
        let high = bytes_le::u64_at(own, WORD_BYTES);
        let k = slot(low, high);
        if again(is_made(&marks, k), &d[at + NAME_BYTES..], low, high) {
            return true;
        }
        make(&mut marks, k);
    }
    false
}
