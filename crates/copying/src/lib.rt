// Bytes and words of a library copied: from one to the other, and its header.
#![tactic(auto)]

ghost use Rattle.std.specs.Prelude.{◌≡◌, ◌++◌, ◌+◌, ◌*◌, ◌/◌, ◌≤◌, length, take, drop};
ghost use Rattle.bytes_le.specs.Le.{word_bytes, bytes_of};
ghost use Rattle.bytes_le.specs.Buffer.{over};
ghost use Rattle.directory.specs.Format.{most_cards, words_in, bytes_of_all, header_of};

use bytes_le::WORD_BYTES;
use directory::{HEADER_BYTES, NAME_BYTES};

// Copies bytes to the start of a buffer.
pub fn copy(src: &[u8], dst: &mut [u8])
    requires { length src.now ≤ length dst.old }
    ensures { dst.new ≡ over src.now dst.old }
{
    for (i, b) in src.iter().enumerate() {
        dst[i] = *b;
    }
}

// Puts the words that bytes spell at the start of a buffer.
pub fn load(src: &[u8], dst: &mut [u64])
    requires { length src.now / word_bytes ≤ length dst.old }
    ensures { dst.new ≡ over (words_in src.now) dst.old }
{
    for (i, x) in src.chunks_exact(WORD_BYTES).enumerate() {
        dst[i] = bytes_le::u64_at(x, 0);
    }
}

// The bytes of a word.
pub fn bytes(x: u64) -> [u8; WORD_BYTES]
    ensures { result ≡ bytes_of word_bytes x }
{
    x.to_le_bytes()
}

// Puts the bytes of words at the start of a buffer.
pub fn store(words: &[u64], dst: &mut [u8])
    requires { word_bytes * length words.now ≤ length dst.old }
    ensures { dst.new ≡ over (bytes_of_all words.now) dst.old }
{
    for (i, x) in words.iter().enumerate() {
        copy(&bytes(*x), &mut dst[WORD_BYTES * i..]);
    }
}

// The header of a library.
pub fn header(version: u16, count: usize) -> [u8; HEADER_BYTES]
    requires { count ≤ most_cards }
    ensures { result ≡ header_of version count }
{
    let records = HEADER_BYTES + NAME_BYTES * count;
    let whole = records + WORD_BYTES * (directory::width(version) * count);
    let mut h = [0; HEADER_BYTES];
    h[..2].copy_from_slice(&version.to_le_bytes());
    h[2..4].copy_from_slice(&(count as u16).to_le_bytes());
    h[4..8].copy_from_slice(&(HEADER_BYTES as u32).to_le_bytes());
    h[8..12].copy_from_slice(&(records as u32).to_le_bytes());
    h[12..].copy_from_slice(&(whole as u32).to_le_bytes());
    h
}
