// The card library: read and written. It is searched for a card by the functions of `finding`, and its bytes and words
// are copied by those of `copying`, which are passed on.
#![tactic(auto)]

ghost use Rattle.library.specs.Answers.{Reads, Writes};

use bytes_le::WORD_BYTES;
pub use copying::{bytes, copy, load, store};
use directory::{HEADER_BYTES, NAME_BYTES, Numbers};
pub use finding::{Place, find, locate, record_at};
use refusal::Refusal;

// A library that is read: its count of cards, and its version.
#[derive(Clone, Copy)]
pub struct Contents {
    pub cards: u32,
    pub version: u16,
}

// Reads a library: the names and the words go to the start of the two buffers, and a refusal changes neither.
pub fn read(library: &[u8], names: &mut [u8], words: &mut [u64]) -> Result<Contents, Refusal>
    ensures { Reads library.now names.old words.old result names.new
        words.new }
{
    let Numbers { cards, words: k } = directory::inspect(library)?;
    let a = NAME_BYTES * cards;
    if names.len() < a {
        return Err(Refusal::ShortOutput);
    }
    if words.len() < k * cards {
        return Err(Refusal::ShortOutput);
    }
    let e = HEADER_BYTES + a;
    copy(&library[HEADER_BYTES..e], names);
    load(&library[e..], words);
    let version = bytes_le::u16_at(library, 0);
    Ok(Contents {
        cards: cards as u32,
        version,
    })
}

// Writes names and words as a library of a version, and answers its count of bytes: it goes to the start of the buffer,
// and a refusal changes nothing.
pub fn write(version: u16, names: &[u8], words: &[u64], library: &mut [u8]) -> Result<u32, Refusal>
    ensures { Writes version names.now words.now library.old result
        library.new }
{
    let Numbers { cards, words: k } = directory::offer(version, names, words)?;
    let e = HEADER_BYTES + NAME_BYTES * cards;
    let whole = e + WORD_BYTES * (k * cards);
    if library.len() < whole {
        return Err(Refusal::ShortOutput);
    }
    let h = copying::header(version, cards);
    copy(&h, library);
    copy(names, &mut library[HEADER_BYTES..]);
    store(words, &mut library[e..]);
    Ok(whole as u32)
}
