// The words of a line, by their places in it.
#![tactic(auto)]

ghost use Rattle.std.specs.Prelude.{◌≡◌};
ghost use Rattle.words.specs.Words.{word_at};

mod parting; // parting.rt: a line parted in words

pub use parting::{next_word, no_words, words_of};

// The most words that a command has.
pub const MOST_WORDS: usize = 13;

// Where a word begins, and the place after its last byte.
#[derive(Clone, Copy, Default)]
pub struct Span {
    pub start: usize,
    pub end: usize,
}

// Where the first words of a line stand. `count` is how many there are; one more than the most stands for any more.
#[derive(Clone, Copy)]
pub struct Words {
    pub spans: [Span; MOST_WORDS],
    pub count: usize,
}

// Word k of a line, from 0; no bytes where there is no such word.
pub fn word(line: &[u8], words: Words, k: usize) -> &[u8]
    ensures { result.now ≡ word_at line.now words k }
{
    let Span { start, end } = words.spans.get(k).copied().unwrap_or_default();
    line.get(start..end).unwrap_or_default()
}
