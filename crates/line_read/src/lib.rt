// A model line read: its card's name and record put into lent buffers, or why not.
#![tactic(auto)]

ghost use Rattle.std.specs.Prelude.{◌≤◌, length, ◌≡◌};
ghost use Rattle.line.specs.Line.{taken, model_of, ends_in_space};
ghost use Rattle.line.specs.Answers.{room_for, Leaves, Reads};
ghost use Rattle.line.specs.Signs.{sign_of};
ghost use Rattle.line.specs.inner.Steps.{head_at, after_keys};

use keys::KEYS;
use line::Head;
pub use line::{RECORD_BYTES, WORDS};
use refusal::Refusal;

// Whether a space stands last.
fn ends_in_space(line: &[u8]) -> bool
    ensures { result ≡ ends_in_space line.now }
{
    line.last() == Some(&b' ')
}

// The name and the record put into the buffers, where both have room.
fn leave(
    line: &[u8],
    head: Head<'_>,
    words: &mut [u64; WORDS],
    name: &mut [u8],
    rec: &mut [u8],
) -> Result<(), Refusal>
    ensures { Leaves (room_for name.old rec.old
        (model_of (head_at line.now head.entry.name.now 0 (sign_of head.entry.polarity)) words.old))
        name.old rec.old result name.new rec.new }
{
    if name.len() < name::LENGTH {
        return Err(Refusal::ShortOutput);
    }
    if rec.len() < RECORD_BYTES {
        return Err(Refusal::ShortOutput);
    }
    words[clip::numbers::POLARITY] = head.polarity.word();
    library::copy(&name::pad(head.name), name);
    library::store(words, rec);
    Ok(())
}

// The end of the line, then what is missing, then the buffers.
fn finish(
    line: &[u8],
    head: Head<'_>,
    words: &mut [u64; WORDS],
    given: &[bool; KEYS],
    name: &mut [u8],
    rec: &mut [u8],
) -> Result<(), Refusal>
    ensures { Leaves (after_keys line.now (head_at line.now head.entry.name.now 0 (sign_of head.entry.polarity))
        (taken words.old given.now) name.old rec.old)
        name.old rec.old result name.new rec.new }
{
    if ends_in_space(line) {
        return Err(Refusal::BadLine);
    }
    if !given[clip::numbers::OCTAVE] {
        return Err(Refusal::KeyMissing);
    }
    leave(line, head, words, name, rec)
}

// Reads a line: the name with its padding and the record go to the start of the two buffers, and a refusal changes
// neither.
pub fn read_line(line: &[u8], name: &mut [u8], rec: &mut [u8]) -> Result<(), Refusal>
    ensures { Reads line.now name.old rec.old result name.new
        rec.new }
{
    let head = line_head::judge_head(line)?;
    let tens = decimal::tens();
    let packed = keys::packed();
    let mut words = keys::defaults();
    let mut given = [false; KEYS];
    line_keys::take_keys(&tens, &packed, line, head.at, &mut words, &mut given)?;
    finish(line, head, &mut words, &given, name, rec)
}
