// The header and the directory of a library, judged: 1, 2, 3 of a library, and of what is to become one.
#![tactic(auto)]

ghost use Rattle.std.specs.Prelude.{◌≡◌, ◌≤◌};
ghost use Rattle.refusal.specs.Order.{refuse_if};
ghost use Rattle.roll.specs.Directory.{names_in, all_named};
ghost use Rattle.directory.specs.Format.{most_words, words_of, agree};
ghost use Rattle.directory.specs.Judged.{found, names_judged, library_judged, offer_judged};

use bytes_le::WORD_BYTES;
use refusal::Refusal;
pub use roll::NAME_BYTES;

// The bytes of the header, and so where the directory starts.
pub const HEADER_BYTES: usize = 16;

// The most cards that a library holds.
pub const MOST_CARDS: usize = 256;

// The numbers of a library, or of what is to become one: its count of cards and the words of a record.
#[derive(Clone, Copy)]
pub struct Numbers {
    pub cards: usize,
    pub words: usize,
}

// How many words a record of a version has; 0 where there is no such version.
pub fn width(version: u16) -> usize
    ensures { (result ≡ words_of version) × (result ≤ most_words) }
{
    match version {
        1 => 16,
        2 => 24,
        _ => 0,
    }
}

// Whether the numbers of a header agree with each other and with the length.
#[tactic(auto, using(crate::proofs::Headers::few), unfolding(crate::specs::Format::agree))]
fn agrees(version: u16, count: u16, directory: u32, records: u32, whole: u32, length: usize) -> bool
    ensures { result ≡ agree version count directory records whole length }
{
    let k = width(version);
    let n = usize::from(count);
    if k == 0 || MOST_CARDS < n {
        return false;
    }
    let e = HEADER_BYTES + NAME_BYTES * n;
    let all = e + WORD_BYTES * (k * n);
    directory as usize == HEADER_BYTES
        && records as usize == e
        && whole as usize == all
        && length == all
}

// Whether every name of a directory is well-formed.
fn all_named(d: &[u8]) -> bool
    ensures { result ≡ all_named (names_in d.now) }
{
    d.chunks_exact(NAME_BYTES).all(|x| name::is_well_formed(x))
}

// The numbers that are handed in, or what is wrong with a directory, 2 before 3.
fn judge(d: &[u8], numbers: Numbers) -> Result<Numbers, Refusal>
    ensures { found result ≡ names_judged d.now (numbers.cards, numbers.words) }
{
    if !all_named(d) {
        return Err(Refusal::BadName);
    }
    if roll::doubled(d) {
        return Err(Refusal::NameTwice);
    }
    Ok(numbers)
}

// A library's numbers, or what is wrong with it.
pub fn inspect(s: &[u8]) -> Result<Numbers, Refusal>
    ensures { found result ≡ library_judged s.now }
{
    let version = bytes_le::u16_at(s, 0);
    let count = bytes_le::u16_at(s, 2);
    let directory = bytes_le::u32_at(s, 4);
    let records = bytes_le::u32_at(s, 8);
    let whole = bytes_le::u32_at(s, 12);
    if !agrees(version, count, directory, records, whole, s.len()) {
        return Err(Refusal::Malformed);
    }
    let cards = count as usize;
    let words = width(version);
    let names = &s[HEADER_BYTES..HEADER_BYTES + NAME_BYTES * cards];
    judge(names, Numbers { cards, words })
}

// The numbers of names and words for a library of a version, or what is wrong with them.
pub fn offer(version: u16, names: &[u8], words: &[u64]) -> Result<Numbers, Refusal>
    ensures { found result ≡ offer_judged version names.now words.now }
{
    let k = width(version);
    if k == 0 {
        return Err(Refusal::Malformed);
    }
    let n = names.len() / NAME_BYTES;
    if names.len() != NAME_BYTES * n {
        return Err(Refusal::Malformed);
    }
    if MOST_CARDS < n {
        return Err(Refusal::Malformed);
    }
    if words.len() != k * n {
        return Err(Refusal::Malformed);
    }
    judge(names, Numbers { cards: n, words: k })
}
