// Lifting kept out of its callers, so that none of a call's stores stand between a board and its copy there.
#![tactic(auto)]

ghost use Rattle.model.specs.Answering.{answer_of};
ghost use Rattle.lifting.specs.OfLending.Rest.{Rest};
ghost use Rattle.lifting.specs.OfLending.Lending.{lifted_lent};
ghost use Rattle.lifting.specs.OfLending.Reached.{Reached};
ghost use Rattle.lifting.specs.OfLending.inner.Lent.{state_with, LendsStanding, LeavesPlaces};

use model::Answer;
use refusal::Refusal;
use totals::NODES;

// The same as `lifting::lift`, never written into a caller.
#[inline(never)]
pub fn lift(
    issues: &mut [u32; places::TRANSISTORS],
    cards: &mut [u32; places::TRANSISTORS],
    seats: &mut [u8; places::TRANSISTORS],
    nodes: &mut [u8; places::ALL_NODES],
    naming: &mut [u64; NODES],
    currents: &mut [i64; places::ALL_CURRENTS],
    volts: &[i64],
    totals: &mut [i64],
    transistor: i64,
) -> Result<Answer, Refusal>
    requires { (r : Rest) × Reached r × LendsStanding r issues.old cards.old seats.old nodes.old naming.old
        currents.old }
    ensures { (r : Rest) → Reached r → LendsStanding r issues.old
        cards.old seats.old nodes.old naming.old currents.old →
        LeavesPlaces (lifted_lent (state_with r volts.now totals.old) transistor)
        (answer_of result) issues.new cards.new seats.new nodes.new naming.new
        totals.new currents.new r.next }
{
    lifting::lift(
        issues, cards, seats, nodes, naming, currents, volts, totals, transistor,
    )
}
