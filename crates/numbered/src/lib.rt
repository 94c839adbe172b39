// The numbers of a line, and whether its words are numbers.
#![tactic(auto)]

ghost use Rattle.std.specs.Prelude.{◌≡◌, ◌-◌};
ghost use Rattle.numbered.specs.Numbers.{are_numbers, numbers_to, most_numbers};

use words::{Words, word};

// The most numbers that a command has.
pub const MOST_NUMBERS: usize = 12;

// Whether the words after the first are numbers, of n words.
pub fn are_numbers(line: &[u8], words: Words, n: usize) -> bool
    ensures { result ≡ are_numbers line.now words 1 (n - 1) }
{
    (1..n).all(|k| spelling::number(word(line, words, k)).is_some())
}

// The words after the first as numbers.
pub fn numbers_of(line: &[u8], words: Words) -> [i64; MOST_NUMBERS]
    ensures { result ≡ numbers_to line.now words most_numbers }
{
    let mut numbers = [0i64; MOST_NUMBERS];
    for k in 0..MOST_NUMBERS {
        numbers[k] = spelling::number(word(line, words, k + 1)).unwrap_or(0);
    }
    numbers
}
