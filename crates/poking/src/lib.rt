// Two numbers written into the slices that are lent to the board, as a host could: for trying the rule of lent memory
// by hand.
#![tactic(auto)]

ghost use Rattle.std.specs.Prelude.{◌≡◌, ◌&&◌};
ghost use Rattle.page.specs.Page.{Writes};
ghost use Rattle.poking.specs.Poked.{fit_both, may_poke, pokes, poked_volts, poked_totals, poke_said};

use answers::Answer;
use page::{Page, ROOM};
use script::Command;
use words::Words;

// How many nodes a board has.
const NODES: usize = 32;

// Whether the two numbers of a poke, its last words, are of 64 bits.
fn both_fit(line: &[u8], words: Words) -> bool
    ensures { result ≡ fit_both line.now words }
{
    spelling::fits(words::word(line, words, 2)) && spelling::fits(words::word(line, words, 3))
}

// Whether a line may poke at this node: where that is allowed, the node is one of the board's and both numbers fit.
fn may_poke(allowed: bool, node: u32, line: &[u8], words: Words) -> bool
    ensures { result ≡ may_poke allowed node line.now words }
{
    allowed && node < NODES as u32 && both_fit(line, words)
}

// Where it may not, the line is no command.
pub fn poke(
    allowed: bool,
    c: Command,
    line: &[u8],
    volts: &mut [i64; NODES],
    totals: &mut [i64; NODES],
    page: &mut Page<ROOM>,
)
    ensures volts_after { volts.new ≡ poked_volts (pokes allowed c line.now) c volts.old }
    ensures totals_after { totals.new ≡ poked_totals (pokes allowed c line.now) c totals.old }
    ensures writes { Writes (poke_said (pokes allowed c line.now) c line.now) page.old page.new }
{
    let node = telling::node_number(c.numbers[0]);
    if may_poke(allowed, node, line, c.words) {
        volts[node as usize] = c.numbers[1];
        totals[node as usize] = c.numbers[2];
        answers::answer_line(Answer::Poked, page);
    } else {
        quoting::error_line(words::word(line, c.words, 0), page);
    }
}
