// Old libraries mended: in the copy that is made no card's I_CSs is a number below zero.
#![tactic(auto)]

ghost use Rattle.mending.specs.Answers.{Mends};

use bytes_le::WORD_BYTES;
use directory::{HEADER_BYTES, NAME_BYTES, Numbers};
use library::copy;
use refusal::Refusal;

// Copies a library to the start of a buffer, with +0 for each finite I_CSs below zero: the names, the header and all
// other words stay. It answers how many cards it set to +0.
// A refusal, one of reading's, changes nothing.
pub fn mend(library: &[u8], output: &mut [u8]) -> Result<u32, Refusal>
    ensures { Mends library.now output.old result output.new }
{
    let Numbers { cards, words } = directory::inspect(library)?;
    if output.len() < library.len() {
        return Err(Refusal::ShortOutput);
    }
    let e = HEADER_BYTES + NAME_BYTES * cards;
    let size = WORD_BYTES * words;
    copy(&library[..e], output);
    let set = signals::put_records(&library[e..], size, &mut output[e..]);
    Ok(set as u32)
}
