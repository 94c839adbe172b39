// Lifting on a board's arrays, lent one by one beside the two slices: it tests, judges the totals as they would stand
// and writes last, so that a refusal leaves all as it was.
#![tactic(auto)]

ghost use Rattle.model.specs.Answering.{answer_of};
ghost use Rattle.lending.specs.Rest.{Rest};
ghost use Rattle.lending.specs.Lending.{lifted_lent};
ghost use Rattle.lending.specs.Reached.{Reached};
ghost use Rattle.lending.specs.inner.Lent.{state_with, LendsStanding, LeavesPlaces};

use model::Answer;
use refusal::Refusal;
use terms::{BRANCHES, ROLES};
use totals::NODES;

// 13 for the slices, 12, then 10 for a total that would leave the 64-bit range. What the transistor holds goes out, so
// that nothing is worked.
pub fn lift(
    issues: &mut [u32; places::TRANSISTORS],
    cards: &mut [u32; places::TRANSISTORS],
    seats: &mut [u8; places::TRANSISTORS],
    nodes: &mut [u8; places::ALL_NODES],
    naming: &mut [u64; NODES],
    currents: &mut [i64; places::ALL_CURRENTS],
    volts: &[i64],
    totals: &mut [i64],
    transistor: i64,
) -> Result<Answer, Refusal>
    requires { (r : Rest) × Reached r × LendsStanding r issues.old cards.old seats.old nodes.old naming.old
        currents.old }
    ensures { (r : Rest) → Reached r → LendsStanding r issues.old
        cards.old seats.old nodes.old naming.old currents.old →
        LeavesPlaces (lifted_lent (state_with r volts.now totals.old) transistor)
        (answer_of result) issues.new cards.new seats.new nodes.new naming.new
        totals.new currents.new r.next }
{
    if !keeping::good_slices(volts, totals) {
        return Err(Refusal::OutOfRange);
    }
    let n = given::issue_of(transistor);
    let Some(i) = places::place_of(issues, n) else {
        return Err(Refusal::Unknown);
    };
    let on = sets::nodes_at(nodes, i);
    let own = sets::currents_at(currents, i);
    let coming = [0i64; NODES];
    let mut going = [0i64; NODES];
    settle::put_in(&mut going, &on, &own);
    let stood = standing::stand_in(totals, &coming, &going, true);
    stood?;
    issues[i] = 0;
    cards[i] = 0;
    seats[i] = 0;
    sets::put_nodes(nodes, i, &[0u8; ROLES]);
    sets::leave(naming, i, &on);
    sets::put_currents(currents, i, &[0i64; BRANCHES]);
    Ok(Answer::Done)
}
