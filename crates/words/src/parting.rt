// A line parted in words, in one pass.
ghost use Rattle.std.specs.Prelude.{◌≡◌};
ghost use Rattle.words.specs.Words.{no_words, with_word, words_of};
ghost use Rattle.words.specs.inner.Passing.{NextWord};

use crate::{MOST_WORDS, Span, Words};

pub fn no_words() -> Words
    ensures { result ≡ no_words }
{
    Words {
        spans: [Span::default(); MOST_WORDS],
        count: 0,
    }
}

impl Words {
    // A word more.
    fn push(&mut self, span: Span)
        ensures { self.new ≡ with_word self.old span }
    {
        if self.count < MOST_WORDS {
            self.spans[self.count] = span;
            self.count += 1;
        } else {
            self.count = MOST_WORDS + 1;
        }
    }
}

// The first word from a place on, where there is one.
pub fn next_word(line: &[u8], at: usize) -> Option<Span>
    ensures { NextWord line.now at result }
{
    let start = at + line.get(at..)?.iter().position(|b| *b != b' ')?;
    let end = match line[start..].iter().position(|b| *b == b' ') {
        Some(n) => start + n,
        None => line.len(),
    };
    Some(Span { start, end })
}

pub fn words_of(line: &[u8]) -> Words
    ensures { result ≡ words_of line.now }
{
    let mut words = no_words();
    let mut at = 0;
    while let Some(span) = next_word(line, at) {
        words.push(span);
        at = span.end;
    }
    words
}
