// Bytes gathered in a text, one after the other. What there is no room for is left out.
ghost use Rattle.std.specs.Prelude.{◌≡◌, [], ◌∷◌};
ghost use Rattle.sheet.specs.Text.{empty_text, Adds};

use crate::{ROOM, Text};

impl Text {
    pub(crate) fn empty() -> Text
        ensures { result ≡ empty_text }
    {
        Text {
            bytes: [0; ROOM],
            len: 0,
        }
    }

    pub(crate) fn push(&mut self, b: u8)
        ensures { Adds self.old (b ∷ []) self.new }
    {
        if self.len < ROOM {
            self.bytes[self.len] = b;
            self.len += 1;
        }
    }

    pub(crate) fn append(&mut self, s: &[u8])
        ensures { Adds self.old s.now self.new }
    {
        for b in s {
            self.push(*b);
        }
    }
}
