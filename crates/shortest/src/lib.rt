// The shortest form of a word. Of all powers the highest that has a form at all has the smallest digits, so that the
// powers are tried from the highest down.
#![tactic(auto)]

ghost use Rattle.std.specs.Prelude.{◌≡◌, ◌<◌, ◌≤◌};
ghost use Rattle.decimal.specs.Decimal.{powers_end};
ghost use Rattle.shortest.specs.Form.{form_of};
ghost use Rattle.shortest.specs.inner.Search.{NoneAbove, Searched};

use decimal::{DIGITS_END, Decimal, NO_POWER, POWERS_END, PowersOfTen, SIGN};

// The first bit of an exponent in a word.
const UNIT: u64 = 1 << 52;

// A power from which on w has no form: one that the exponent suggests, where a test agrees, or the end.
fn ceiling(tens: &PowersOfTen, w: u64) -> u64
    requires w_nonzero { 0 < w }
    ensures { (result ≤ powers_end) × NoneAbove w result }
{
    match (w / UNIT * 1233 / 4096).checked_sub(284) {
        Some(q) if q < POWERS_END && w < decimal::size_bits(tens, 1, q) => q,
        _ => POWERS_END,
    }
}

// The shortest form of a size above zero, with a sign. Where no fifteen digits come to w, none do at a lower power.
fn search(tens: &PowersOfTen, minus: bool, w: u64) -> Option<Decimal>
    requires w_nonzero { 0 < w }
    ensures { Searched minus w result }
{
    for power in (0..ceiling(tens, w)).rev() {
        let digits = reaching::first_to(tens, w, power);
        if DIGITS_END <= digits {
            return None;
        }
        if decimal::size_bits(tens, digits, power) == w {
            return Some(Decimal {
                minus,
                digits,
                power,
            });
        }
    }
    None
}

// The shortest form of a word; nothing where it has none, as minus zero.
pub fn form_of(tens: &PowersOfTen, w: u64) -> Option<Decimal>
    ensures { result ≡ form_of w }
{
    if w == 0 {
        return Some(Decimal {
            minus: false,
            digits: 0,
            power: NO_POWER,
        });
    }
    let size = w % SIGN;
    if size == 0 {
        return None;
    }
    search(tens, SIGN <= w, size)
}
