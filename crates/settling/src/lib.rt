// The places of a set brought to new voltages: what comes into the totals and what goes out, how they stand then, what
// is held then, and the first of the places that overloads.
#![tactic(auto)]

ghost use Rattle.std.specs.Prelude.{◌*◌, ◌<◌, pos};
ghost use Rattle.terms.specs.Rows.{branches};
ghost use Rattle.totals.specs.Gives.{nodes_most};
ghost use Rattle.totals.specs.Flow.{ticks_give};
ghost use Rattle.totals.specs.inner.Sums.{More, Givable};
ghost use Rattle.deck.specs.Stretch.{stretch};
ghost use Rattle.flows.specs.inner.Workable.{deck_of};
ghost use Rattle.places.specs.Counts.{transistors_most};
ghost use Rattle.settle.specs.inner.Working.{round_of, Settling, Going, Settled};

use flows::{put_in, work};
use octave::Table;
use places::{ALL_CURRENTS, ALL_NODES, TRANSISTORS};
use refusal::Refusal;
use settle::First;
use terms::{BRANCHES, ROLES};
use totals::NODES;

// A set below this one has none but the first sixteen places, which give so little that all of it is small.
const FEW: u64 = 65536;

// What is held at the place i goes out at its nodes. Apart, so that a copy of it is not kept while later places are
// worked.
fn put_out(going: &mut [i64; NODES], on: &[u8; ROLES], currents: &[i64; ALL_CURRENTS], i: usize)
    requires { (i < transistors_most)
        × Givable going.old on.now (stretch (pos 0) currents.now (branches * i) branches) }
    ensures { More nodes_most going.old going.new
        (ticks_give on.now (stretch (pos 0) currents.now (branches * i) branches)) }
{
    let old = sets::currents_at(currents, i);
    put_in(going, on, &old);
}

// What one that overloads is reckoned with.
const NONE: [i64; BRANCHES] = [0; BRANCHES];

// Works the place i of the set and then those after it; after the last, unless one overloads, the totals are judged as
// they would stand, and are written. A place's new currents are held on the way back, when nothing has turned out to be
// refused, so that nothing is to be undone.
fn settle_from(
    currents: &mut [i64; ALL_CURRENTS],
    coming: &mut [i64; NODES],
    going: &mut [i64; NODES],
    totals: &mut [i64],
    table: &Table,
    numbers: &[u32; deck::ALL_NUMBERS],
    powers: &[u16; deck::ALL_POWERS],
    ticks: &[u64; deck::ALL_TICKS],
    switches: &[bool; deck::ALL_SWITCHES],
    issues: &[u32; TRANSISTORS],
    seats: &[u8; TRANSISTORS],
    nodes: &[u8; ALL_NODES],
    will: &[u32; NODES],
    set: u64,
    i: usize,
    first: Option<First>,
) -> Result<(), Refusal>
    requires { Going
        (round_of (deck_of numbers.now powers.now ticks.now switches.now) issues.now seats.now nodes.now set
        will.now) table.now currents.old totals.old i coming.old going.old first }
    ensures { Settled
        (round_of (deck_of numbers.now powers.now ticks.now switches.now)
        issues.now seats.now nodes.now set will.now)
        currents.old totals.old i result totals.new currents.new }
{
    if TRANSISTORS <= i {
        let Some(first) = first else {
            return standing::stand_in(totals, coming, going, set < FEW);
        };
        return Err(settle::refusal_of(first.issue, Some(first.over)));
    }
    let s = seats[i] as usize;
    let on = sets::nodes_at(nodes, i);
    let o = work(table, numbers, powers, ticks, switches, s, &on, will);
    let own = match &o {
        Ok(ticks) => ticks,
        Err(_) => &NONE,
    };
    put_out(going, &on, currents, i);
    put_in(coming, &on, own);
    let over = o.err();
    let found = settle::earlier_of(first, issues[i], over);
    let after = sets::next_in(set, i + 1);
    let last = settle_from(
        currents, coming, going, totals, table, numbers, powers, ticks, switches, issues, seats,
        nodes, will, set, after, found,
    );
    if last.is_ok() {
        sets::put_currents(currents, i, own);
    }
    last
}

// Brings the places of the set to the new voltages: at their nodes what they hold goes out of the totals and what they
// will have comes in, and that is held then. 15 or 18 for the first of them that overloads then, and 10 where none does
// and a total would leave the 64-bit range; a refusal leaves the totals and what is held as they were. Where the set
// has no places, nothing is worked.
pub fn settle(
    currents: &mut [i64; ALL_CURRENTS],
    totals: &mut [i64],
    numbers: &[u32; deck::ALL_NUMBERS],
    powers: &[u16; deck::ALL_POWERS],
    ticks: &[u64; deck::ALL_TICKS],
    switches: &[bool; deck::ALL_SWITCHES],
    issues: &[u32; TRANSISTORS],
    seats: &[u8; TRANSISTORS],
    nodes: &[u8; ALL_NODES],
    will: &[u32; NODES],
    set: u64,
) -> Result<(), Refusal>
    requires { Settling
        (round_of (deck_of numbers.now powers.now ticks.now switches.now) issues.now seats.now nodes.now set
        will.now) currents.old totals.old }
    ensures { Settled
        (round_of (deck_of numbers.now powers.now ticks.now switches.now)
        issues.now seats.now nodes.now set will.now)
        currents.old totals.old 0 result totals.new currents.new }
{
    if set == 0 {
        return standing::stand_still(totals);
    }
    let table = octave::table();
    let mut coming = [0i64; NODES];
    let mut going = [0i64; NODES];
    let i = sets::next_in(set, 0);
    settle_from(
        currents,
        &mut coming,
        &mut going,
        totals,
        &table,
        numbers,
        powers,
        ticks,
        switches,
        issues,
        seats,
        nodes,
        will,
        set,
        i,
        None,
    )
}
