// A card made ready, written in its stretches of the flat arrays.
#![tactic(auto)]

ghost use Rattle.std.specs.Prelude.{◌≡◌, ◌<◌};
ghost use Rattle.deck.specs.Layout.{cards_most};
ghost use Rattle.deck.specs.Layout.{numbers_of, powers_of, ticks_of, switches_of, Laid};

use card::WorkedCard;
use deck::{ALL_NUMBERS, ALL_POWERS, ALL_SWITCHES, ALL_TICKS, NUMBERS, POWERS, SWITCHES, TICKS};
use terms::Ready;

fn numbers_of(r: Ready) -> [u32; NUMBERS]
    ensures { result ≡ numbers_of r }
{
    let c = r.card;
    let p = r.plain;
    let q = r.second;
    let d = r.doubled;
    [
        c.sn.a,
        c.bulk.a,
        c.side.a,
        c.nonideal.a,
        c.ex.a,
        c.sub.a,
        c.sf.a,
        c.rex.a,
        c.rsub.a,
        c.reverse.a,
        c.ge.a,
        c.gbc.a,
        c.gcc.a,
        c.gblx.a,
        c.gbli.a,
        c.octave,
        c.second,
        c.knee,
        p.w,
        p.high,
        p.low,
        p.base,
        q.w,
        q.high,
        q.low,
        q.base,
        d.w,
        d.high,
        d.low,
        d.base,
    ]
}

fn powers_of(c: WorkedCard) -> [u16; POWERS]
    ensures { result ≡ powers_of c }
{
    [
        c.sn.down,
        c.bulk.down,
        c.side.down,
        c.nonideal.down,
        c.ex.down,
        c.sub.down,
        c.sf.down,
        c.rex.down,
        c.rsub.down,
        c.reverse.down,
        c.ge.down,
        c.gbc.down,
        c.gcc.down,
        c.gblx.down,
        c.gbli.down,
    ]
}

fn ticks_of(r: Ready) -> [u64; TICKS]
    ensures { result ≡ ticks_of r }
{
    let p = r.plain;
    let q = r.second;
    let d = r.doubled;
    let g = r.knee;
    [
        p.add, q.add, d.add, g.m, g.n, r.bulk, r.side, r.nonideal, r.ex, r.sub, r.sf, r.reverse,
    ]
}

fn switches_of(c: WorkedCard) -> [bool; SWITCHES]
    ensures { result ≡ switches_of c }
{
    [c.exsub, c.rcbli_zero, c.pnp, c.rcblx_zero, c.wide]
}

pub fn put_ready(
    numbers: &mut [u32; ALL_NUMBERS],
    powers: &mut [u16; ALL_POWERS],
    ticks: &mut [u64; ALL_TICKS],
    switches: &mut [bool; ALL_SWITCHES],
    i: usize,
    r: Ready,
)
    requires { i < cards_most }
    ensures { Laid i r numbers.old powers.old ticks.old switches.old
        numbers.new powers.new ticks.new switches.new }
{
    let card = r.card;
    deck::put_stretch(numbers, i, &numbers_of(r));
    deck::put_stretch(powers, i, &powers_of(card));
    deck::put_stretch(ticks, i, &ticks_of(r));
    deck::put_stretch(switches, i, &switches_of(card));
}
