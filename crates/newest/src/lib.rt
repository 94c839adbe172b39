// The newest card of a name: that of the highest issue number.
#![tactic(auto)]

ghost use Rattle.std.specs.Prelude.{◌≡◌};
ghost use Rattle.places.specs.inner.Flat.{highest_in};
ghost use Rattle.newest.specs.Named.{issue_in};

use bytes_le::WORD_BYTES;
use places::{ALL_NAMES, CARDS};

// The highest issue among the cards of a name, where there is one; each card's is compared where it stands.
pub fn highest(
    held: &[u32; CARDS],
    names: &[u8; ALL_NAMES],
    asked: &[u8; name::LENGTH],
) -> Option<u32>
    ensures { result ≡ issue_in (highest_in asked.now held.now names.now) }
{
    let low = bytes_le::u64_at(asked, 0);
    let high = bytes_le::u64_at(asked, WORD_BYTES);
    let mut best: u32 = 0;
    for i in (0..CARDS).rev() {
        if name::stands_at(names, name::LENGTH * i, low, high) {
            best = held[i].max(best);
        }
    }
    if best == 0 { None } else { Some(best) }
}
