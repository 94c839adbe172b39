// The first digits that come to a size, at one power: they are guessed, and the guess is tested.
#![tactic(auto)]

ghost use Rattle.std.specs.Prelude.{◌≡◌, ◌<◌};
ghost use Rattle.decimal.specs.Decimal.{digits_end, powers_end};
ghost use Rattle.reaching.specs.FirstTo.{FirstTo, Bracket};

use decimal::{DIGITS_END, NO_POWER, PowersOfTen};

const MOST_DIGITS: u64 = DIGITS_END - 1;

// The first word that is no finite size.
const INFINITE: u64 = 0x7ff0000000000000;

// By halves, between two bounds.
fn halve(tens: &PowersOfTen, w: u64, q: u64, from: u64, to: u64) -> u64
    requires q_lt_powers_end { q < powers_end }
    requires bracket { Bracket w q from to }
    ensures { FirstTo w q result }
{
    let mut low = from;
    let mut high = to;
    while low < high {
        let middle = low + (high - low) / 2;
        if decimal::size_bits(tens, middle, q) < w {
            low = middle + 1;
        } else {
            high = middle;
        }
    }
    low
}

// x without what stands after its point, brought among the digits above zero.
fn among_digits(x: f64) -> u64
    ensures { (0 < result) × (result < digits_end) }
{
    std::num::saturating_f64_to_u64(x).clamp(1, MOST_DIGITS)
}

// Digits that may well be the ones looked for.
fn guess(tens: &PowersOfTen, w: u64, q: u64) -> u64
    requires q_lt_powers_end { q < powers_end }
    ensures { (0 < result) × (result < digits_end) }
{
    if w < INFINITE {
        among_digits(tens.times(f64::from_bits(w), 2 * NO_POWER - q) + 0.5)
    } else {
        MOST_DIGITS
    }
}

// The first digits that come to w: the guess or the next where a test says so, and by halves where it does not.
pub fn first_to(tens: &PowersOfTen, w: u64, q: u64) -> u64
    requires q_lt_powers_end { q < powers_end }
    ensures { FirstTo w q result }
{
    let near = guess(tens, w, q);
    if decimal::size_bits(tens, near, q) < w {
        let next = near + 1;
        if next == DIGITS_END || w <= decimal::size_bits(tens, next, q) {
            return next;
        }
        return halve(tens, w, q, next + 1, DIGITS_END);
    }
    if near == 1 || decimal::size_bits(tens, near - 1, q) < w {
        return near;
    }
    halve(tens, w, q, 1, near - 1)
}
