// The keys of a model line with their numbers, one word after the other, into the words of a record.
#![tactic(auto)]

ghost use Rattle.std.specs.Prelude.{◌≡◌};
ghost use Rattle.line.specs.Line.{taken, words_from, take_key, take_keys};
ghost use Rattle.line.specs.inner.Steps.{keys_told};

use decimal::PowersOfTen;
use keys::{KEYS, PackedKeys};
use line::WORDS;
use refusal::Refusal;

// One key with its number. What a refusal leaves in the arrays is not said.
fn take_key(
    tens: &PowersOfTen,
    packed: &PackedKeys,
    w: &[u8],
    words: &mut [u64; WORDS],
    given: &mut [bool; KEYS],
) -> Result<(), Refusal>
    ensures { keys_told result words.new given.new ≡
        take_key (taken words.old given.old) w.now }
{
    let Some(m) = w.iter().position(|b| *b == b'=') else {
        return Err(Refusal::BadLine);
    };
    let Some(k) = keys::number_of(packed, &w[0..m]) else {
        return Err(Refusal::BadKey);
    };
    if given[k] {
        return Err(Refusal::BadKey);
    }
    let Some(x) = decimal_read::read_word(tens, &w[m + 1..]) else {
        return Err(Refusal::BadNumber);
    };
    words[k] = x;
    given[k] = true;
    Ok(())
}

// All words of the line from a place on.
pub fn take_keys(
    tens: &PowersOfTen,
    packed: &PackedKeys,
    line: &[u8],
    from: usize,
    words: &mut [u64; WORDS],
    given: &mut [bool; KEYS],
) -> Result<(), Refusal>
    ensures { keys_told result words.new given.new ≡
        take_keys (taken words.old given.old) (words_from line.now from) }
{
    let mut at = from;
    while let Some(span) = words::next_word(line, at) {
        take_key(tens, packed, &line[span.start..span.end], words, given)?;
        at = span.end;
    }
    Ok(())
}
