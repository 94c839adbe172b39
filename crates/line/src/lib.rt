// A model line: what it says, and how reading it goes. Definitions, types and laws; what reads it is in `line_head`,
// `line_keys` and `line_read`.
#![tactic(auto)]

// The words of a record of version 2, and its bytes.
pub const WORDS: usize = 24;

pub const RECORD_BYTES: usize = 192;

// The type of a transistor.
#[derive(Clone, Copy)]
pub enum Polarity {
    Npn,
    Pnp,
}

impl Polarity {
    ghost use Rattle.std.specs.Prelude.{◌≡◌};
    ghost use Rattle.line.specs.Signs.{sign_of};

    // The word that says it in a record.
    pub fn word(self) -> u64
        ensures { result ≡ sign_of self }
    {
        match self {
            Polarity::Npn => keys::PLUS_ONE,
            Polarity::Pnp => keys::MINUS_ONE,
        }
    }
}

// The first words of a line: its name, its type, and the place after them.
#[derive(Clone, Copy)]
pub struct Head<'a> {
    pub name: &'a [u8],
    pub polarity: Polarity,
    pub at: usize,
}
