// Moving kept out of its callers, so that none of a call's stores stand between a board and its copy there.
#![tactic(auto)]

ghost use Rattle.model.specs.Answering.{answer_of};
ghost use Rattle.moving.specs.OfLending.Rest.{Rest};
ghost use Rattle.moving.specs.OfLending.Lending.{moved_lent};
ghost use Rattle.moving.specs.OfLending.Reached.{Reached};
ghost use Rattle.moving.specs.OfLending.inner.Lent.{state_with, Lends, LeavesLevels};

use model::Answer;
use places::TRANSISTORS;
use refusal::Refusal;
use totals::NODES;

// The same as `moving::move_all`, never written into a caller.
#[inline(never)]
pub fn move_all(
    volts: &mut [i64],
    totals: &mut [i64],
    currents: &mut [i64; places::ALL_CURRENTS],
    numbers: &[u32; deck::ALL_NUMBERS],
    powers: &[u16; deck::ALL_POWERS],
    ticks: &[u64; deck::ALL_TICKS],
    switches: &[bool; deck::ALL_SWITCHES],
    issues: &[u32; TRANSISTORS],
    seats: &[u8; TRANSISTORS],
    nodes: &[u8; places::ALL_NODES],
    naming: &[u64; NODES],
    pairs: &[i64],
) -> Result<Answer, Refusal>
    requires { (r : Rest) × Reached r × Lends r numbers.now powers.now ticks.now switches.now issues.now
        seats.now nodes.now naming.now currents.old }
    ensures { (r : Rest) → Reached r → Lends r numbers.now powers.now ticks.now
        switches.now issues.now seats.now nodes.now naming.now
        currents.old → LeavesLevels (moved_lent (state_with r volts.old totals.old)
        pairs.now) (answer_of result) volts.new totals.new currents.new }
{
    moving::move_all(
        volts, totals, currents, numbers, powers, ticks, switches, issues, seats, nodes, naming,
        pairs,
    )
}
