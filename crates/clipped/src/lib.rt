// The line of a clipped record: its mask and its numbers.
#![tactic(auto)]

ghost use Rattle.std.specs.Prelude.{◌≡◌};
ghost use Rattle.page.specs.Page.{Writes};
ghost use Rattle.sheet.specs.Text.{text_of};
ghost use Rattle.clipped.specs.Clipped.{bits_of, word_of, clip_line};

use page::{Page, ROOM};
use sheet::Text;

// The bits of a number; a clipped one is never the one without a value.
fn bits(x: f64) -> u64
    ensures { result ≡ bits_of x }
{
    if x.is_nan() { 0 } else { f64::to_bits(x) }
}

fn word(x: f64) -> Text
    ensures { result ≡ text_of (word_of x) }
{
    sheet::word_digits(bits(x))
}

// A clipped record: its mask, by whether it is of version 2, and the bits of its numbers.
pub fn clip_line(mask: u32, wide: bool, numbers: &[f64], page: &mut Page<ROOM>)
    ensures { Writes (clip_line mask wide numbers.now) page.old page.new }
{
    page.put(b"clip ");
    texts::put_text(sheet::mask_digits(mask, wide), page);
    spaced::put_each(numbers, word, page);
}
