// Texts put into a line's room, each after the bytes that are used.
#![tactic(auto)]

ghost use Rattle.std.specs.Prelude.{◌≡◌, ◌∷◌, [], ◌+◌, ◌≤◌, ◌<◌, ◌^◌, length};
ghost use Rattle.spelling.specs.Digits.{plain_digits};
ghost use Rattle.decimal.specs.Decimal.{digits_end, powers_end};
ghost use Rattle.decimal_write.specs.Added.{line_room, Added};
ghost use Rattle.decimal_write.specs.Written.{power_text, number_text};

use decimal::{Decimal, NO_POWER};

// How many bytes a line's room has.
pub const LINE_ROOM: usize = 640;

const MOST_DIGITS: usize = 15;

fn put(line: &mut [u8; LINE_ROOM], at: usize, b: u8) -> usize
    requires at_lt_line_room { at < line_room }
    ensures { (result ≡ at + 1) × Added line.old at line.new result (b ∷ []) }
{
    line[at] = b;
    at + 1
}

// The bytes of a text.
pub fn put_bytes(line: &mut [u8; LINE_ROOM], at: usize, text: &[u8]) -> usize
    requires text_bound { at + length text.now ≤ line_room }
    ensures { (result ≡ at + length text.now) ×
        Added line.old at line.new result text.now }
{
    let end = at + text.len();
    line[at..end].copy_from_slice(text);
    end
}

// The decimal digits of d, which has at most k.
fn put_digits(line: &mut [u8; LINE_ROOM], at: usize, k: usize, d: u64) -> usize
    requires k_nonzero { 0 < k }
    requires k_bound { at + k ≤ line_room }
    requires d_bound { d < 10 ^ k }
    ensures { (result ≤ at + k) × Added line.old at line.new result (plain_digits k d) }
{
    if d < 10 {
        return put(line, at, (48 + d) as u8);
    }
    let next = put_digits(line, at, k - 1, d / 10);
    put(line, next, (48 + d % 10) as u8)
}

fn put_power(line: &mut [u8; LINE_ROOM], at: usize, q: u64) -> usize
    requires at_bound { at + 3 ≤ line_room }
    requires q_lt_powers_end { q < powers_end }
    ensures { (result ≤ at + 3) × Added line.old at line.new result (power_text q) }
{
    if q < NO_POWER {
        let next = put(line, at, b'-');
        return put_digits(line, next, 2, NO_POWER - q);
    }
    put_digits(line, at, 2, q - NO_POWER)
}

// A number: 20 bytes at most.
pub fn put_number(line: &mut [u8; LINE_ROOM], at: usize, x: Decimal) -> usize
    requires at_bound { at + 20 ≤ line_room }
    requires digits_lt_digits_end { x.digits < digits_end }
    requires power_lt_powers_end { x.power < powers_end }
    ensures { (result ≤ at + 20) ×
        Added line.old at line.new result (number_text x.minus x.digits x.power) }
{
    let first = if x.minus { put(line, at, b'-') } else { at };
    let mark = put_digits(line, first, MOST_DIGITS, x.digits);
    let power = put(line, mark, b'e');
    put_power(line, power, x.power)
}
