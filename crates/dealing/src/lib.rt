// A card read from its stretches of the flat arrays.
#![tactic(auto)]

ghost use Rattle.std.specs.Prelude.{◌≡◌, ◌+◌, ◌<◌};
ghost use Rattle.deck.specs.Layout.{cards_most, numbers_each, powers_each, ticks_each};
ghost use Rattle.deck.specs.Layout.{numbers_at, powers_at, ticks_at, switches_at};
ghost use Rattle.deck.specs.Layout.{split_from, reciprocal_from, worked_from, ready_at};

use card::WorkedCard;
pub use deck;
use deck::terms::Ready;
use deck::{
    ALL_NUMBERS, ALL_POWERS, ALL_SWITCHES, ALL_TICKS, NUMBERS, POWERS, RCBLI_ZERO, RCBLX_ZERO,
    SWITCHES, TICKS, WIDE,
};
use float::Split;
use octave::{Exponential, Reciprocal};

// The k-th value of the card at place i.
fn split_at(numbers: &[u32; ALL_NUMBERS], powers: &[u16; ALL_POWERS], i: usize, k: usize) -> Split
    requires i_lt_cards_most { i < cards_most }
    requires k_lt_powers_each { k < powers_each }
    ensures { result ≡ split_from (numbers_at numbers.now i) (powers_at powers.now i) k }
{
    Split {
        a: numbers[NUMBERS * i + k],
        down: powers[POWERS * i + k],
    }
}

// What was worked for an octave: four numbers from the k-th on, and the t-th of the ticks.
fn reciprocal_at(
    numbers: &[u32; ALL_NUMBERS],
    ticks: &[u64; ALL_TICKS],
    i: usize,
    k: usize,
    t: usize,
) -> Reciprocal
    requires i_lt_cards_most { i < cards_most }
    requires k_bound { k + 3 < numbers_each }
    requires t_lt_ticks_each { t < ticks_each }
    ensures { result ≡ reciprocal_from (numbers_at numbers.now i) (ticks_at ticks.now i) k t }
{
    let s = NUMBERS * i + k;
    Reciprocal {
        w: numbers[s],
        high: numbers[s + 1],
        low: numbers[s + 2],
        base: numbers[s + 3],
        add: ticks[TICKS * i + t],
    }
}

fn worked_at(
    numbers: &[u32; ALL_NUMBERS],
    powers: &[u16; ALL_POWERS],
    switches: &[bool; ALL_SWITCHES],
    i: usize,
) -> WorkedCard
    requires { i < cards_most }
    ensures { result ≡ worked_from (numbers_at numbers.now i) (powers_at powers.now i)
        (switches_at switches.now i) }
{
    WorkedCard {
        sn: split_at(numbers, powers, i, 0),
        bulk: split_at(numbers, powers, i, 1),
        side: split_at(numbers, powers, i, 2),
        nonideal: split_at(numbers, powers, i, 3),
        ex: split_at(numbers, powers, i, 4),
        sub: split_at(numbers, powers, i, 5),
        sf: split_at(numbers, powers, i, 6),
        rex: split_at(numbers, powers, i, 7),
        rsub: split_at(numbers, powers, i, 8),
        reverse: split_at(numbers, powers, i, 9),
        ge: split_at(numbers, powers, i, 10),
        gbc: split_at(numbers, powers, i, 11),
        gcc: split_at(numbers, powers, i, 12),
        gblx: split_at(numbers, powers, i, 13),
        gbli: split_at(numbers, powers, i, 14),
        octave: numbers[NUMBERS * i + 15],
        second: numbers[NUMBERS * i + 16],
        knee: numbers[NUMBERS * i + 17],
        exsub: switches[SWITCHES * i],
        rcbli_zero: switches[SWITCHES * i + RCBLI_ZERO],
        pnp: switches[SWITCHES * i + 2],
        rcblx_zero: switches[SWITCHES * i + RCBLX_ZERO],
        wide: switches[SWITCHES * i + WIDE],
    }
}

pub fn ready_at(
    numbers: &[u32; ALL_NUMBERS],
    powers: &[u16; ALL_POWERS],
    ticks: &[u64; ALL_TICKS],
    switches: &[bool; ALL_SWITCHES],
    i: usize,
) -> Ready
    requires { i < cards_most }
    ensures { result ≡ ready_at numbers.now powers.now ticks.now
        switches.now i }
{
    let l = TICKS * i;
    Ready {
        card: worked_at(numbers, powers, switches, i),
        plain: reciprocal_at(numbers, ticks, i, 18, 0),
        second: reciprocal_at(numbers, ticks, i, 22, 1),
        doubled: reciprocal_at(numbers, ticks, i, 26, 2),
        knee: Exponential {
            m: ticks[l + 3],
            n: ticks[l + 4],
        },
        bulk: ticks[l + 5],
        side: ticks[l + 6],
        nonideal: ticks[l + 7],
        ex: ticks[l + 8],
        sub: ticks[l + 9],
        sf: ticks[l + 10],
        reverse: ticks[l + 11],
    }
}
