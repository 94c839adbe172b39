// A transistor worked: its currents, and by what it overloads; and currents put into sums at its nodes.
#![tactic(auto)]

ghost use Rattle.std.specs.Prelude.{◌≡◌, map, ◌<◌, length, get_or};
ghost use Rattle.volts.specs.Volts.{given_back};
ghost use Rattle.totals.specs.OfTerms.Rows.{roles, branches};
ghost use Rattle.dealing.specs.OfRows.Outcome.{is_over, drawn_by};
ghost use Rattle.totals.specs.Gives.{nodes_most};
ghost use Rattle.totals.specs.Flow.{ticks_give};
ghost use Rattle.totals.specs.inner.Sums.{More, Wired, Givable};
ghost use Rattle.flows.specs.inner.Workable.{roles_of, deck_of, card_of, Workable, Works};

use dealing::deck;
use octave::Table;
use refusal::Refusal;
use totals::NODES;
pub use totals::polarity;
use totals::polarity::Over;
use totals::terms::{BRANCHES, ROLES};

fn volt(volts: &[u32; NODES], n: u8) -> u32
    requires { n < nodes_most }
    ensures { result ≡ get_or volts.now n 0 }
{
    volts[n as usize]
}

// The voltages of a transistor's roles.
fn role_volts(volts: &[u32; NODES], on: &[u8; ROLES]) -> [u32; ROLES]
    requires { Wired nodes_most on.now × (length on.now ≡ roles) }
    ensures { result ≡ roles_of volts.now on.now }
{
    let mut v = [0u32; ROLES];
    for (k, n) in on.iter().enumerate() {
        v[k] = volt(volts, *n);
    }
    v
}

// The currents of a transistor on the card at place s of the deck: its ticks, or by what it overloads first.
pub fn work(
    table: &Table,
    numbers: &[u32; deck::ALL_NUMBERS],
    powers: &[u16; deck::ALL_POWERS],
    ticks: &[u64; deck::ALL_TICKS],
    switches: &[bool; deck::ALL_SWITCHES],
    s: usize,
    on: &[u8; ROLES],
    volts: &[u32; NODES],
) -> Result<[i64; BRANCHES], Over>
    requires { Workable table.now (deck_of numbers.now powers.now ticks.now switches.now) s on.now
        volts.now }
    ensures { Works (card_of (deck_of numbers.now powers.now ticks.now
        switches.now) s) on.now (map given_back volts.now) result }
{
    let v = role_volts(volts, on);
    let r = dealing::ready_at(numbers, powers, ticks, switches, s);
    polarity::work_out(table, r, &v)
}

// Gives a transistor's currents to sums at its nodes.
pub fn put_in(l: &mut [i64; NODES], on: &[u8; ROLES], own: &[i64; BRANCHES])
    requires { Givable l.old on.now own.now × (length own.now ≡ branches) }
    ensures { More nodes_most l.old l.new
        (ticks_give on.now own.now) }
{
    totals::put(l, on, own);
}

// Whether what comes of a transistor is an overload at all.
pub fn is_over(o: Option<Over>) -> bool
    ensures { result ≡ is_over o }
{
    o.is_some()
}

// The refusal that an overload draws for the transistor of this number.
pub fn refusal_of(issue: u32, o: Option<Over>) -> Refusal
    ensures { result ≡ drawn_by issue o }
{
    match o {
        None => Refusal::Overload(issue, 0),
        Some(Over::Ticks(k)) => Refusal::Overload(issue, k),
        Some(Over::Injection(k)) => Refusal::Injection(issue, k),
    }
}
