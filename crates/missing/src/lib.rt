// The words that not every record has: what they mean where they are missing, and the spare ones.
#![tactic(auto)]

ghost use Rattle.std.specs.Prelude.{◌≡◌, ◌<◌};
ghost use Rattle.loading.specs.OfClip.Limits.{wide};
ghost use Rattle.loading.specs.OfClip.Record.{word_at};
ghost use Rattle.loading.specs.Numbers.{spares_good};
ghost use Rattle.missing.specs.inner.Filled.{filled_with};

use loading::clip::{WIDTH, numbers};

// The numbers that clipping gives, with what version 1 means by those that it has not: all are 0 but the polarity.
pub fn filled(wide: bool, x: [f64; WIDTH]) -> [f64; WIDTH]
    ensures { result ≡ filled_with wide x }
{
    if wide {
        return x;
    }
    let mut y = x;
    y[numbers::POLARITY] = 1.0;
    y
}

// Word i of a record, as it stands there before clipping.
fn word_at(bytes: &[u8], i: usize) -> u64
    requires { i < wide }
    ensures { result ≡ word_at bytes.now i }
{
    bytes_le::u64_at(bytes, 8 * i)
}

// Whether both spare words are +0 by their bits.
pub fn spares_good(bytes: &[u8]) -> bool
    ensures { result ≡ spares_good bytes.now }
{
    let first = word_at(bytes, numbers::SPARE);
    let second = word_at(bytes, numbers::SPARE + 1);
    first == 0 && second == 0
}
