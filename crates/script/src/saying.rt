// What a line says, its words parted.
ghost use Rattle.std.specs.Prelude.{◌≡◌, length};
ghost use Rattle.script.specs.Command.{most_bytes, passed_over, said, has_numbers, are_pairs, said_pairs, SaysTo};
ghost use Rattle.script.specs.Command.{verb_if};

use crate::{Command, Verb};
use numbered::{are_numbers, numbers_of};
use series::Series;
use verbs::Wants;
use words::{Words, word};

// Whether a line with that first word is passed over: it has no word, or a comment.
pub(crate) fn is_passed_over(first: &[u8]) -> bool
    ensures { result ≡ passed_over first.now }
{
    match first {
        [] => true,
        [b, ..] => *b == b'#',
    }
}

// The line says the verb; its hex digits spell so many bytes.
pub(crate) fn said(line: &[u8], words: Words, verb: Verb, bytes: usize) -> Command
    ensures { result ≡ said line.now words verb bytes }
{
    Command {
        verb,
        words,
        numbers: numbers_of(line, words),
        bytes,
        list: None,
    }
}

// The verb, where the line is one of its commands.
fn verb_if(good: bool, verb: Verb) -> Verb
    ensures { result ≡ verb_if good verb }
{
    if good { verb } else { Verb::Error }
}

// Whether the line has n words, those after the first numbers.
fn has_numbers(line: &[u8], words: Words, n: usize) -> bool
    ensures { result ≡ has_numbers line.now words n }
{
    words.count == n && are_numbers(line, words, n)
}

// Whether a series is one of pairs.
fn are_pairs(list: Option<Series>) -> bool
    ensures { result ≡ are_pairs list }
{
    match list {
        Some(l) => l.count % 2 == 0,
        None => false,
    }
}

// A line that has to have pairs of numbers.
fn said_pairs(line: &[u8], words: Words, verb: Verb) -> Command
    ensures { result ≡ said_pairs line.now words verb }
{
    let list = series::series_of(line);
    Command {
        list,
        ..said(line, words, verb_if(are_pairs(list), verb), 0)
    }
}

// A line that has to have a name and hex digits.
fn said_hex(line: &[u8], words: Words, verb: Verb, bytes: &mut [u8]) -> Command
    requires { length bytes.old ≡ most_bytes }
    ensures { SaysTo line.now words verb Wants.NameAndHex bytes.old result
        bytes.new }
{
    if words.count != 3 {
        return said(line, words, Verb::Error, 0);
    }
    match hex_bytes::hex_bytes(word(line, words, 2), bytes) {
        Some(n) => said(line, words, verb, n),
        None => said(line, words, Verb::Error, 0),
    }
}

// What a line that is not passed over says to the row of a verb.
pub(crate) fn said_to(
    line: &[u8],
    words: Words,
    verb: Verb,
    wants: Wants,
    bytes: &mut [u8],
) -> Command
    requires { length bytes.old ≡ most_bytes }
    ensures { SaysTo line.now words verb wants bytes.old result bytes.new }
{
    match wants {
        Wants::Texts(n) => said(line, words, verb_if(words.count == n, verb), 0),
        Wants::Numbers(n) => said(line, words, verb_if(has_numbers(line, words, n), verb), 0),
        Wants::Either(m, n) => {
            let good = has_numbers(line, words, m) || has_numbers(line, words, n);
            said(line, words, verb_if(good, verb), 0)
        }
        Wants::Pairs => said_pairs(line, words, verb),
        Wants::NameAndHex => said_hex(line, words, verb, bytes),
        Wants::Anything => said(line, words, verb, 0),
    }
}
