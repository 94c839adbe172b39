// Names of cards: sixteen bytes with their padding, or as they are asked for, without it. Every function takes any
// slice.
#![tactic(auto)]

ghost use Rattle.std.specs.Prelude.{◌≡◌, ◌++◌, length, take, drop};
ghost use Rattle.bytes_le.specs.Le.{word_bytes, bytes_of};
ghost use Rattle.name.specs.Name.{name_length, mark, run, zeros, well_formed, asked, padded, same};

use bytes_le::WORD_BYTES;

// The bytes of a name with its padding.
pub const LENGTH: usize = 16;

// Whether a name may hold the byte.
fn marks(b: u8) -> bool
    ensures { result ≡ mark b }
{
    b.is_ascii_graphic()
}

// The count of leading bytes that are all allowed in a name.
fn leading(s: &[u8]) -> usize
    ensures { result ≡ run s.now }
{
    s.iter().take_while(|b| marks(**b)).count()
}

// Whether there are only zero bytes.
fn blank(s: &[u8]) -> bool
    ensures { result ≡ zeros s.now }
{
    s.iter().all(|b| *b == 0)
}

// Whether the bytes are a name with its padding.
pub fn is_well_formed(s: &[u8]) -> bool
    ensures { result ≡ well_formed s.now }
{
    if s.len() != LENGTH {
        return false;
    }
    let k = leading(s);
    0 < k && blank(&s[k..])
}

// Whether the bytes are a name without padding.
pub fn is_asked(x: &[u8]) -> bool
    ensures { result ≡ asked x.now }
{
    if x.is_empty() {
        return false;
    }
    x.len() <= LENGTH && leading(x) == x.len()
}

// The name with its padding; of more than sixteen bytes the first sixteen.
pub fn pad(x: &[u8]) -> [u8; LENGTH]
    ensures { result ≡ padded x.now }
{
    let n = LENGTH.min(x.len());
    let mut held = [0; LENGTH];
    held[..n].copy_from_slice(&x[..n]);
    held
}

// Whether the name with these two words stands at a place: its bytes are compared there, a word at a time.
pub fn stands_at(s: &[u8], at: usize, low: u64, high: u64) -> bool
    ensures { result ≡ same (bytes_of word_bytes low ++ bytes_of word_bytes high)
        (take name_length (drop at s.now)) }
{
    if s.len() < LENGTH {
        return false;
    }
    if s.len() - LENGTH < at {
        return false;
    }
    let x = bytes_le::u64_at(s, at);
    let y = bytes_le::u64_at(s, at + WORD_BYTES);
    low == x && high == y
}
