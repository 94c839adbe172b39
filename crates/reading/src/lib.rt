// Reading what a transistor holds, on a board's arrays lent one by one, and a node's numbers in the two slices.
#![tactic(auto)]

ghost use Rattle.std.specs.Prelude.{◌≡◌};
ghost use Rattle.lending.specs.OfModel.Board.{Board};
ghost use Rattle.lending.specs.OfModel.Answering.{answer_of};
ghost use Rattle.lending.specs.OfModel.Model.{opened_of};
ghost use Rattle.reading.specs.Reading.{told_currents, told_ticks};
ghost use Rattle.lending.specs.Rest.{Rest};
ghost use Rattle.lending.specs.Lending.{showed_lent};
ghost use Rattle.lending.specs.inner.Lent.{state_with};

use lending::model::Answer;
use places::{ALL_CURRENTS, TRANSISTORS};
use refusal::Refusal;
use terms::BRANCHES;
use totals::NODES;

// The currents of a transistor's branches, by its issue number: 12.
pub fn read_currents(
    issues: &[u32; TRANSISTORS],
    currents: &[i64; ALL_CURRENTS],
    transistor: i64,
) -> Result<[i64; BRANCHES], Refusal>
    ensures { (b : Board) → issues.now ≡ b.issues → currents.now ≡ b.currents →
        (told_currents result ≡ (opened_of b transistor).answer) × (told_ticks result ≡ (opened_of b transistor).ticks) }
{
    let n = given::issue_of(transistor);
    let Some(i) = places::place_of(issues, n) else {
        return Err(Refusal::Unknown);
    };
    Ok(sets::currents_at(currents, i))
}

// A node's voltage in microvolts and its total in ticks, as the slices have them: 13 for the slices, then for the node.
pub fn read_node(volts: &[i64], totals: &[i64], node: i64) -> Result<Answer, Refusal>
    ensures { (b : Rest) → answer_of result ≡ (showed_lent (state_with b volts.now totals.now)
        node).answer }
{
    if !keeping::good_slices(volts, totals) {
        return Err(Refusal::OutOfRange);
    }
    let n = given::node_of(node) as usize;
    if NODES <= n {
        return Err(Refusal::OutOfRange);
    }
    Ok(Answer::Node(volts[n], totals[n]))
}
