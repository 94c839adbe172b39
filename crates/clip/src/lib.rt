// A record's numbers clipped, each by its rule, with the mask of those whose value changed.
#![tactic(auto)]

ghost use Rattle.std.specs.Prelude.{◌≡◌};
ghost use Rattle.clip.specs.Record.{is_wide, is_narrow, right_length};
ghost use Rattle.clip.specs.Clip.{Clips};

pub mod numbers; // numbers.rt: the parameters' numbers
mod limits; // limits.rt: the clip rules
mod words; // words.rt: the words of a record, one after the other

pub use float;
use refusal::Refusal;

// The words of a record of version 2, and of one of version 1.
pub const WIDTH: usize = 24;

pub const NARROW: usize = 16;

// The clipped numbers, +0 for each that the record has not, and bit i of the mask for a number i whose value changed.
#[derive(Clone, Copy)]
pub struct Clipping {
    pub numbers: [f64; WIDTH],
    pub mask: u32,
}

// Whether the bytes are as many as a record of version 2 has.
pub fn is_wide(bytes: &[u8]) -> bool
    ensures { result ≡ is_wide bytes.now }
{
    bytes.len() == 8 * WIDTH
}

// Whether they are as many as one of version 1 has.
fn is_narrow(bytes: &[u8]) -> bool
    ensures { result ≡ is_narrow bytes.now }
{
    bytes.len() == 8 * NARROW
}

// Whether they are as many as a record has.
pub fn right_length(bytes: &[u8]) -> bool
    ensures { result ≡ right_length bytes.now }
{
    is_wide(bytes) || is_narrow(bytes)
}

// Clipping alone: 1, then 6.
pub fn clip(bytes: &[u8]) -> Result<Clipping, Refusal>
    ensures { Clips bytes.now result }
{
    if is_wide(bytes) {
        words::clip_all(bytes, WIDTH)
    } else if is_narrow(bytes) {
        words::clip_all(bytes, NARROW)
    } else {
        Err(Refusal::Malformed)
    }
}
