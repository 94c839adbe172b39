// The numbers of a record read, judged finite and clipped, one after the other.
ghost use Rattle.clip.specs.Clip.{Clips};
ghost use Rattle.clip.specs.inner.Width.{IsRecord};

use crate::{Clipping, WIDTH, limits};
use refusal::Refusal;

// Clipping of a record of so many words.
pub(crate) fn clip_all(bytes: &[u8], words: usize) -> Result<Clipping, Refusal>
    requires { IsRecord bytes.now words }
    ensures { Clips bytes.now result }
{
    let mut numbers = [0.0; WIDTH];
    let mut mask: u32 = 0;
    for i in 0..words {
        let x = float::read(bytes_le::u64_at(bytes, 8 * i)).ok_or(Refusal::NotFinite)?;
        let y = limits::apply(limits::rule_of(i), x);
        numbers[i] = y;
        mask += u32::from(x != y) << i;
    }
    Ok(Clipping { numbers, mask })
}
