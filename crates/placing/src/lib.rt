// Placing's tests in their order, up to the last, which needs the currents.
#![tactic(auto)]

ghost use Rattle.std.specs.Prelude.{◌≡◌, not, ◌&&◌, ◌<◌, eqb, leb};
ghost use Rattle.totals.specs.Gives.{nodes_most};
ghost use Rattle.given.specs.Lists.{any_of};
ghost use Rattle.given.specs.Arguments.{used_up, wide_by};
ghost use Rattle.places.specs.Counts.{cards_most, transistors_most};
ghost use Rattle.places.specs.inner.Flat.{number_place, free_place, ties_at, wide_at};
ghost use Rattle.placing.specs.inner.Placing.{torn_on, placing, way_of};

use deck::{ALL_SWITCHES, RCBLI_ZERO, RCBLX_ZERO, SWITCHES, WIDE};
use given::ISSUES;
use places::{CARDS, TRANSISTORS};
use refusal::Refusal;
use terms::{C1, C3, C4, ROLES};
use totals::NODES;

// Where a transistor is to stand: the place of its card, and a free one for itself.
#[derive(Clone, Copy)]
pub struct Spot {
    pub card: usize,
    pub free: usize,
}

// Whether a node is none of the board's.
fn any_off(on: &[u8; ROLES]) -> bool
    ensures { result ≡ any_of (leb nodes_most) on.now }
{
    for &n in on {
        if NODES <= n as usize {
            return true;
        }
    }
    false
}

// Whether two roles that are held together stand apart.
fn parts(held: bool, a: u8, b: u8) -> bool
    ensures { result ≡ (held && not (eqb a b)) }
{
    held && a != b
}

// Whether the card at a place holds two roles together that stand apart: C4 and C1, or C3 and C4.
fn is_split(switches: &[bool; ALL_SWITCHES], i: usize, on: &[u8; ROLES]) -> bool
    requires { i < cards_most }
    ensures { result ≡ torn_on (ties_at switches.now i) on.now }
{
    let inner = parts(switches[SWITCHES * i + RCBLI_ZERO], on[C4], on[C1]);
    let outer = parts(switches[SWITCHES * i + RCBLX_ZERO], on[C3], on[C4]);
    inner || outer
}

// Whether the card of a number has all eleven roles; where there is no such card, no node is looked at.
pub fn is_wide(held: &[u32; CARDS], switches: &[bool; ALL_SWITCHES], n: u32) -> bool
    ensures { result ≡ wide_by (wide_at switches.now) (number_place cards_most n held.now) }
{
    let Some(i) = places::place_of(held, n) else {
        return true;
    };
    switches[SWITCHES * i + WIDE]
}

pub fn may_place(
    held: &[u32; CARDS],
    switches: &[bool; ALL_SWITCHES],
    issues: &[u32; TRANSISTORS],
    next: u32,
    n: u32,
    on: &[u8; ROLES],
) -> Result<Spot, Refusal>
    ensures { result ≡ way_of (free_place issues.now)
        (placing (number_place cards_most n held.now) (ties_at switches.now) on.now
        (leb transistors_most (free_place issues.now)) (used_up next)) }
{
    let Some(i) = places::place_of(held, n) else {
        return Err(Refusal::Unknown);
    };
    if any_off(on) {
        return Err(Refusal::OutOfRange);
    }
    if is_split(switches, i, on) {
        return Err(Refusal::SplitCollector);
    }
    let Some(free) = places::find(issues, 0) else {
        return Err(Refusal::NoRoom);
    };
    if ISSUES < next {
        return Err(Refusal::NumbersUsedUp);
    }
    Ok(Spot { card: i, free })
}
