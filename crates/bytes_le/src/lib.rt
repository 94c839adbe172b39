// Little-endian numbers at a place of a slice of bytes. Bytes past the slice's end count as 0, so every function is
// total.
#![tactic(auto)]

ghost use Rattle.std.specs.Prelude.{◌≡◌, ◌<◌, ◌≤◌, ◌^◌, get_or, drop};
ghost use Rattle.bytes_le.specs.Le.{le_at, word_bytes, Word};

// The bytes of a word.
pub const WORD_BYTES: usize = 8;

// The byte at a place, 0 past the end.
fn byte(s: &[u8], i: usize) -> u64
    ensures { (result ≡ get_or s.now i 0) × (result < 256) }
{
    if i < s.len() { u64::from(s[i]) } else { 0 }
}

// The number in the w bytes at a place, from its highest byte down.
fn number(s: &[u8], at: usize, w: usize) -> u64
    requires { w ≤ word_bytes }
    ensures { (result ≡ le_at w s.now at) × (result < 256 ^ w) }
{
    if s.len() <= at {
        return 0;
    }
    let mut x: u64 = 0;
    for i in (0..w).rev() {
        x = 256 * x + byte(&s[at..], i);
    }
    x
}

pub fn u16_at(s: &[u8], at: usize) -> u16
    ensures { result ≡ le_at 2 s.now at }
{
    number(s, at, 2) as u16
}

pub fn u32_at(s: &[u8], at: usize) -> u32
    ensures { result ≡ le_at 4 s.now at }
{
    number(s, at, 4) as u32
}

// The word in the first bytes. Where all of a word's are there it is one load.
fn word(s: &[u8]) -> u64
    ensures { Word s.now result }
{
    match s.first_chunk() {
        Some(all) => u64::from_le_bytes(*all),
        None => number(s, 0, WORD_BYTES),
    }
}

// The word at a place.
pub fn u64_at(s: &[u8], at: usize) -> u64
    ensures { Word (drop at s.now) result }
{
    word(s.get(at..).unwrap_or_default())
}
