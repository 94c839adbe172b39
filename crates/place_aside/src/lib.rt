// Placing kept out of its callers, so that none of a call's stores stand between a board and its copy there.
#![tactic(auto)]

ghost use Rattle.model.specs.Answering.{answer_of};
ghost use Rattle.seating.specs.OfLending.Rest.{Rest};
ghost use Rattle.seating.specs.OfLending.Lending.{placed_lent};
ghost use Rattle.seating.specs.OfLending.Reached.{Reached};
ghost use Rattle.seating.specs.OfLending.inner.Lent.{state_with, LendsPlaces, LeavesPlaces};

use model::Answer;
use refusal::Refusal;
use terms::ROLES;
use totals::NODES;

// The same as `seating::place`, never written into a caller.
#[inline(never)]
pub fn place(
    issues: &mut [u32; places::TRANSISTORS],
    cards: &mut [u32; places::TRANSISTORS],
    seats: &mut [u8; places::TRANSISTORS],
    nodes: &mut [u8; places::ALL_NODES],
    naming: &mut [u64; NODES],
    currents: &mut [i64; places::ALL_CURRENTS],
    next: &mut u32,
    numbers: &[u32; deck::ALL_NUMBERS],
    powers: &[u16; deck::ALL_POWERS],
    ticks: &[u64; deck::ALL_TICKS],
    switches: &[bool; deck::ALL_SWITCHES],
    held: &[u32; places::CARDS],
    volts: &[i64],
    totals: &mut [i64],
    card: i64,
    roles: [i64; ROLES],
) -> Result<Answer, Refusal>
    requires { (r : Rest) × Reached r × LendsPlaces r numbers.now powers.now ticks.now switches.now
        held.now issues.old cards.old seats.old nodes.old naming.old currents.old next.old }
    ensures { (r : Rest) → Reached r → LendsPlaces r numbers.now powers.now
        ticks.now switches.now held.now issues.old cards.old
        seats.old nodes.old naming.old currents.old next.old →
        LeavesPlaces (placed_lent (state_with r volts.now totals.old) card roles)
        (answer_of result) issues.new cards.new seats.new nodes.new naming.new
        totals.new currents.new next.new }
{
    seating::place(
        issues, cards, seats, nodes, naming, currents, next, numbers, powers, ticks, switches,
        held, volts, totals, card, roles,
    )
}
