// What a line of a script says. The line is lent; what it says comes back by value, its words by their places in the
// line.
#![tactic(auto)]

ghost use Rattle.script.specs.Command.{Says};

mod saying; // saying.rt: what a line says

pub use numbered::MOST_NUMBERS;
pub use series::Series;
pub use verbs::Verb;
pub use words::{MOST_WORDS, Words, word};

// The most bytes of a line, without the newline that ends it.
pub const LONGEST_LINE: usize = 4096;

// More bytes than a line has hex digits for.
pub const MOST_BYTES: usize = 2048;

// What a line says: the verb, the words, those after the first as numbers, how many bytes its hex digits spell, and the
// whole series of its numbers where the command is a list.
#[derive(Clone, Copy)]
pub struct Command {
    pub verb: Verb,
    pub words: Words,
    pub numbers: [i64; MOST_NUMBERS],
    pub bytes: usize,
    pub list: Option<Series>,
}

// What a line says. The bytes that its hex digits spell are put at the start of `bytes`.
pub fn read(line: &[u8], bytes: &mut [u8; MOST_BYTES]) -> Command
    ensures { Says line.now bytes.old result bytes.new }
{
    if LONGEST_LINE < line.len() {
        return saying::said(line, words::no_words(), Verb::TooLong, 0);
    }
    let words = words::words_of(line);
    if saying::is_passed_over(word(line, words, 0)) {
        return saying::said(line, words, Verb::Nothing, 0);
    }
    let row = verbs::named(word(line, words, 0));
    let verb = row.verb;
    let wants = row.wants;
    saying::said_to(line, words, verb, wants, bytes)
}
