// Moving nodes together on a board's arrays, lent one by one beside the two slices: it tests, works each transistor
// that names one of the nodes once, judges the totals as they would stand, and writes when nothing can be refused any
// more, so that a refusal leaves all as it was.
#![tactic(auto)]

ghost use Rattle.lending.specs.OfModel.Answering.{answer_of};
ghost use Rattle.lending.specs.Rest.{Rest};
ghost use Rattle.lending.specs.Lending.{moved_lent};
ghost use Rattle.lending.specs.Reached.{Reached};
ghost use Rattle.lending.specs.inner.Lent.{state_with, Lends, LeavesLevels};

use lending::model::Answer;
use places::TRANSISTORS;
use refusal::Refusal;
use totals::NODES;

// 13 for the slices, 1, 13 for any pair, then 15 or 18 for the first of the transistors that would overload at the end,
// and 10 for a total that would leave the 64-bit range.
pub fn move_all(
    volts: &mut [i64],
    totals: &mut [i64],
    currents: &mut [i64; places::ALL_CURRENTS],
    numbers: &[u32; deck::ALL_NUMBERS],
    powers: &[u16; deck::ALL_POWERS],
    ticks: &[u64; deck::ALL_TICKS],
    switches: &[bool; deck::ALL_SWITCHES],
    issues: &[u32; TRANSISTORS],
    seats: &[u8; TRANSISTORS],
    nodes: &[u8; places::ALL_NODES],
    naming: &[u64; NODES],
    pairs: &[i64],
) -> Result<Answer, Refusal>
    requires { (r : Rest) × Reached r × Lends r numbers.now powers.now ticks.now switches.now issues.now
        seats.now nodes.now naming.now currents.old }
    ensures { (r : Rest) → Reached r → Lends r numbers.now powers.now ticks.now
        switches.now issues.now seats.now nodes.now naming.now
        currents.old → LeavesLevels (moved_lent (state_with r volts.old totals.old)
        pairs.now) (answer_of result) volts.new totals.new currents.new }
{
    let Some(mut will) = keeping::keep_slices(volts, totals) else {
        return Err(Refusal::OutOfRange);
    };
    if !pairs::are_pairs(pairs) {
        return Err(Refusal::Malformed);
    }
    pairs::keep_pairs(&mut will, pairs)?;
    let set = pairs::naming_any(naming, pairs);
    let settled = settling::settle(
        currents, totals, numbers, powers, ticks, switches, issues, seats, nodes, &will, set,
    );
    settled?;
    pairs::put_pairs(volts, pairs);
    Ok(Answer::Done)
}
