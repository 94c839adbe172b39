// What a host's call does that moves nodes on the host's own board: the board's arrays are lent one by one, and nothing
// is copied. Its result is 0 or a refusal's number.
#![tactic(auto)]

ghost use Rattle.lending.specs.Rest.{Rest};
ghost use Rattle.lending.specs.Lending.{moved_lent};
ghost use Rattle.lending.specs.Reached.{Reached};
ghost use Rattle.lending.specs.inner.Lent.{state_with, Lends};
ghost use Rattle.host_lent.specs.InPlace.{MovedInPlace};

use places::TRANSISTORS;
use totals::NODES;

// Nodes moved together, by a list of pairs; who overloads in which branch goes to the lent places.
pub fn move_lent(
    volts: &mut [i64],
    totals: &mut [i64],
    currents: &mut [i64; places::ALL_CURRENTS],
    numbers: &[u32; deck::ALL_NUMBERS],
    powers: &[u16; deck::ALL_POWERS],
    ticks: &[u64; deck::ALL_TICKS],
    switches: &[bool; deck::ALL_SWITCHES],
    issues: &[u32; TRANSISTORS],
    seats: &[u8; TRANSISTORS],
    nodes: &[u8; places::ALL_NODES],
    naming: &[u64; NODES],
    pairs: &[i64],
    who: &mut u32,
    branch: &mut u32,
) -> u32
    requires { (b : Rest) × Reached b × Lends b numbers.now powers.now ticks.now switches.now issues.now
        seats.now nodes.now naming.now currents.old }
    ensures { (b : Rest) → Reached b → Lends b numbers.now powers.now ticks.now
        switches.now issues.now seats.now nodes.now naming.now
        currents.old → MovedInPlace (moved_lent (state_with b volts.old totals.old)
        pairs.now) volts.new totals.new currents.new who.old
        who.new branch.old branch.new result }
{
    let moved = moving::move_all(
        volts, totals, currents, numbers, powers, ticks, switches, issues, seats, nodes, naming,
        pairs,
    );
    host_words::tell_fault(model::answer_of(moved), who, branch)
}
