// Placing on a board's arrays, lent one by one beside the two slices: it tests, works the transistor, judges the totals
// as they would stand, and writes last, so that a refusal leaves all as it was.
#![tactic(auto)]

ghost use Rattle.lending.specs.OfModel.Answering.{answer_of};
ghost use Rattle.lending.specs.Rest.{Rest};
ghost use Rattle.lending.specs.Lending.{placed_lent};
ghost use Rattle.lending.specs.Reached.{Reached};
ghost use Rattle.lending.specs.inner.Lent.{state_with, LendsPlaces, LeavesPlaces};

use lending::model::Answer;
use refusal::Refusal;
use terms::ROLES;
use totals::NODES;

// 13 for the slices, 12, 13, 14, 11, 17, then 15 or 18 with the number that the transistor would have had, and 10 for a
// total that would leave the 64-bit range.
pub fn place(
    issues: &mut [u32; places::TRANSISTORS],
    cards: &mut [u32; places::TRANSISTORS],
    seats: &mut [u8; places::TRANSISTORS],
    nodes: &mut [u8; places::ALL_NODES],
    naming: &mut [u64; NODES],
    currents: &mut [i64; places::ALL_CURRENTS],
    next: &mut u32,
    numbers: &[u32; deck::ALL_NUMBERS],
    powers: &[u16; deck::ALL_POWERS],
    ticks: &[u64; deck::ALL_TICKS],
    switches: &[bool; deck::ALL_SWITCHES],
    held: &[u32; places::CARDS],
    volts: &[i64],
    totals: &mut [i64],
    card: i64,
    roles: [i64; ROLES],
) -> Result<Answer, Refusal>
    requires { (r : Rest) × Reached r × LendsPlaces r numbers.now powers.now ticks.now switches.now
        held.now issues.old cards.old seats.old nodes.old naming.old currents.old next.old }
    ensures { (r : Rest) → Reached r → LendsPlaces r numbers.now powers.now
        ticks.now switches.now held.now issues.old cards.old
        seats.old nodes.old naming.old currents.old next.old →
        LeavesPlaces (placed_lent (state_with r volts.now totals.old) card roles)
        (answer_of result) issues.new cards.new seats.new nodes.new naming.new
        totals.new currents.new next.new }
{
    let Some(kept) = keeping::keep_slices(volts, totals) else {
        return Err(Refusal::OutOfRange);
    };
    let n = given::issue_of(card);
    let wide = placing::is_wide(held, switches, n);
    let seen = ends::looked_at(wide, roles);
    let on = given::nodes_of(seen);
    let issue = *next;
    let spot = placing::may_place(held, switches, issues, issue, n, &on)?;
    let (at, free) = (spot.card, spot.free);
    let table = octave::table();
    let own = match settle::work(&table, numbers, powers, ticks, switches, at, &on, &kept) {
        Ok(own) => own,
        Err(over) => return Err(settle::refusal_of(issue, Some(over))),
    };
    let mut coming = [0i64; NODES];
    settle::put_in(&mut coming, &on, &own);
    let going = [0i64; NODES];
    let stood = standing::stand_in(totals, &coming, &going, true);
    stood?;
    issues[free] = issue;
    cards[free] = held[at];
    seats[free] = at as u8;
    sets::put_nodes(nodes, free, &on);
    sets::join(naming, free, &on);
    sets::put_currents(currents, free, &own);
    *next = issue + 1;
    Ok(Answer::Issue(issue))
}
