// The branch currents of a transistor, in ticks of 2^-50 ampere.
#![tactic(auto)]

ghost use Rattle.branch.specs.Currents.{Replies};

mod answering; // answering.rt: from a card and voltages to a reply

use refusal::Refusal;
pub use terms::{BRANCHES, ROLES};

// The currents of a record of a card at the voltages of its roles, in microvolts: 1, 6, 7, 8, 19, 9, 10, 13, 15 or 18.
pub fn currents(bytes: &[u8], volts: &[i64; ROLES]) -> Result<[i64; BRANCHES], Refusal>
    ensures { Replies bytes.now volts.now result }
{
    answering::card_currents(card::judge(bytes)?, volts)
}
