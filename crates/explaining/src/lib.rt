// What a refusal means, in words: a line that explains an answer, written on a page.
#![tactic(auto)]

ghost use Rattle.std.specs.Prelude.{◌≡◌};
ghost use Rattle.page.specs.Page.{Writes};
ghost use Rattle.spelling.specs.Number.{parsed_of};
ghost use Rattle.explaining.specs.Explanation.{natural_of, where_told, explanation};

mod sentences; // sentences.rt: the sentence for each refusal
mod table; // table.rt: a line of a text

use page::Page;
use words::{Words, word};

// Room for every one of them.
pub const EXPLANATION_ROOM: usize = 320;

// How many words a refusal has that tells a transistor and a branch.
const WHERE_WORDS: usize = 4;

// The number that a word spells; 0 where it spells none, or one below 0.
fn natural(word: &[u8]) -> u64
    ensures { result ≡ natural_of (parsed_of word.now) }
{
    spelling::number(word)
        .and_then(|x| u64::try_from(x).ok())
        .unwrap_or(0)
}

// The transistor and the branch, where the answer tells them.
fn put_where(answer: &[u8], words: Words, page: &mut Page<EXPLANATION_ROOM>)
    ensures { Writes (where_told answer.now words) page.old page.new }
{
    if words.count == WHERE_WORDS {
        let branch = word(answer, words, 3);
        page.put(b": transistor ");
        page.put(word(answer, words, 2));
        page.put(b", branch ");
        page.put(branch);
        page.put(sentences::ends(natural(branch)));
    }
}

// Explains an answer, which comes without its newline; nothing where the answer is no refusal.
pub fn explain_line(answer: &[u8], page: &mut Page<EXPLANATION_ROOM>)
    ensures { Writes (explanation answer.now) page.old page.new }
{
    let words = words::words_of(answer);
    if word(answer, words, 0) == b"refused".as_slice() {
        page.put(b"# ");
        page.put(sentences::sentence(natural(word(answer, words, 1))));
        put_where(answer, words, page);
        page.put(b"\n");
    }
}
