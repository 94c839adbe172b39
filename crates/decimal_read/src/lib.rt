// The text of a number, read.
#![tactic(auto)]

ghost use Rattle.std.specs.Prelude.{false, ◌≡◌, ◌+◌, ◌<◌, ◌≤◌};
ghost use Rattle.decimal.specs.Decimal.{digits_end};
ghost use Rattle.decimal_read.specs.Text.{most_digits, figure_of, pair_of, signed_power, power_after, placed_of};
ghost use Rattle.decimal_read.specs.Text.{ended_of, scanned, read_of, InRange, word_read};
ghost use Rattle.decimal_read.specs.inner.Told.{Told};

use decimal::{Decimal, POWERS_END, PowersOfTen};

const MOST_DIGITS: u64 = 15;

// The digit of a byte.
fn figure(b: u8) -> Option<u64>
    ensures { Told 10 result (figure_of b) }
{
    Some(u64::from(char::from(b).to_digit(10)?))
}

// A digit or two.
fn pair(s: &[u8]) -> Option<u64>
    ensures { Told 100 result (pair_of s.now) }
{
    match s {
        [a] => figure(*a),
        [a, b] => Some(figure(*a)? * 10 + figure(*b)?),
        _ => None,
    }
}

// A power with 99 added.
fn signed(s: &[u8]) -> Option<u64>
    ensures { Told 200 result (signed_power s.now) }
{
    match s {
        [] => None,
        [b'-', digits @ ..] => Some(99 - pair(digits)?),
        _ => Some(99 + pair(s)?),
    }
}

// The same, of all that follows the digits.
fn power(s: &[u8]) -> Option<u64>
    ensures { Told 200 result (power_after s.now) }
{
    match s {
        [] => Some(99),
        [b'e', rest @ ..] => signed(rest),
        _ => None,
    }
}

// The point moved out.
fn placed(minus: bool, d: u64, f: u64, r: u64) -> Option<Decimal>
    requires f_le_most_digits { f ≤ most_digits }
    requires d_lt_digits_end { d < digits_end }
    ensures { (result ≡ placed_of minus d f r) × InRange result }
{
    let q = r.checked_sub(77 + f)?;
    if q < POWERS_END {
        Some(Decimal {
            minus,
            digits: d,
            power: q,
        })
    } else {
        None
    }
}

fn ended(minus: bool, d: u64, n: u64, f: u64, s: &[u8]) -> Option<Decimal>
    requires f_le_most_digits { f ≤ most_digits }
    requires d_lt_digits_end { d < digits_end }
    ensures { (result ≡ ended_of minus d n f s.now) × InRange result }
{
    if n == 0 {
        return None;
    }
    placed(minus, d, f, power(s)?)
}

// All that follows the sign.
fn scan(minus: bool, s: &[u8]) -> Option<Decimal>
    ensures { (result ≡ scanned minus 0 0 0 false s.now) × InRange result }
{
    let mut t = s;
    let mut d = 0u64;
    let mut n = 0u64;
    let mut f = 0u64;
    let mut point = false;
    while let [b, rest @ ..] = t {
        match figure(*b) {
            Some(v) if n < MOST_DIGITS => {
                d = d * 10 + v;
                n += 1;
                f += u64::from(point);
                t = rest;
            }
            None if *b == b'.' && !point => {
                point = true;
                t = rest;
            }
            _ => return ended(minus, d, n, f, t),
        }
    }
    ended(minus, d, n, f, t)
}

// The number that a text stands for.
fn read(s: &[u8]) -> Option<Decimal>
    ensures { (result ≡ read_of s.now) × InRange result }
{
    match s {
        [] => None,
        [b'-', rest @ ..] => scan(true, rest),
        _ => scan(false, s),
    }
}

// Its word.
pub fn read_word(tens: &PowersOfTen, s: &[u8]) -> Option<u64>
    ensures { result ≡ word_read s.now }
{
    let x = read(s)?;
    Some(decimal::word(tens, x))
}
