// The lines of a file of models: their kind, and their bytes joined.
#![tactic(auto)]

ghost use Rattle.std.specs.Prelude.{◌≡◌};
ghost use Rattle.joining.specs.Lines.{marked, kept_of, with_byte, with_text, bare_of, kind_of};

// The most bytes of a model line, and how much is kept of a line.
pub const LONGEST_LINE: usize = 4096;

pub const LINE_ROOM: usize = 4098;

#[derive(Clone, Copy)]
pub enum Kind {
    // a comment, or a blank line
    Passed,
    Model,
    // goes on with the model line before it
    More,
}

// Of two bytes the later one, if it is no space.
fn marked(a: u8, b: u8) -> u8
    ensures { result ≡ marked a b }
{
    if b == b' ' { a } else { b }
}

// What is kept of a line: the first `used` bytes.
#[derive(Drop)]
pub struct Line {
    pub bytes: [u8; LINE_ROOM],
    pub used: usize,
}

impl Line {
    pub fn kept(&self) -> &[u8]
        ensures { result.now ≡ kept_of self.now }
    {
        &self.bytes[..self.used.min(LINE_ROOM)]
    }

    // A byte more.
    pub fn add_byte(&mut self, b: u8)
        ensures { kept_of self.new ≡ with_byte (kept_of self.old) b }
    {
        if self.used < LINE_ROOM {
            self.bytes[self.used] = b;
            self.used += 1;
            return;
        }
        self.bytes[LONGEST_LINE] = marked(self.bytes[LONGEST_LINE], self.bytes[LONGEST_LINE + 1]);
        self.bytes[LONGEST_LINE + 1] = b;
        self.used = LINE_ROOM;
    }

    // A text more.
    pub fn add_text(&mut self, text: &[u8])
        ensures { kept_of self.new ≡ with_text (kept_of self.old) text.now }
    {
        let n = self.used;
        if n < LINE_ROOM {
            let kept = (LINE_ROOM - n).min(text.len());
            self.bytes[n..n + kept].copy_from_slice(&text[..kept]);
            self.used = n + kept;
        }
    }
}

// A line without the carriage return at its end.
pub fn bare(line: &[u8]) -> &[u8]
    ensures { result.now ≡ bare_of line.now }
{
    match line {
        [rest @ .., b'\r'] => rest,
        _ => line,
    }
}

pub fn kind_of(line: &[u8]) -> Kind
    ensures { result ≡ kind_of line.now }
{
    if trimming::trimmed(line).is_empty() {
        return Kind::Passed;
    }
    match line {
        [] | [b'*', ..] => Kind::Passed,
        [b'+', ..] => Kind::More,
        _ => Kind::Model,
    }
}
