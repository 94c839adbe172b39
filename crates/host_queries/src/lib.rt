// What a host's calls do that only read a board. Each takes the board by value, and after it what the host lends; it
// gives the result of the call, 0 or a refusal's number.
#![tactic(auto)]

ghost use Rattle.std.specs.Prelude.{length};
ghost use Rattle.model.specs.Model.{looked_of, opened_of, listed_of, summed_of};
ghost use Rattle.lending.specs.Rest.{bare};
ghost use Rattle.lending.specs.Lending.{showed_lent};
ghost use Rattle.board.specs.Promise.{model_of, state_in, Reached};
ghost use Rattle.host_queries.specs.Queries.{LookedUp, Shown, Opened, Listed, SummedUp};

pub use board;
use board::Board;
use refusal::Refusal;

// The newest card of a name; its number goes to the lent place.
pub fn look_up(board: Board, name: &[u8], issue: &mut u32) -> u32
    requires { Reached board }
    ensures { LookedUp (looked_of (bare (model_of board)) name.now) issue.old
        issue.new result }
{
    let asked = board.look_up(name);
    let answer = asked.answer;
    host_words::tell_issue(answer, issue)
}

// A node's voltage and total, as the slices have them, in the lent places.
pub fn read_node(
    board: Board,
    volts: &[i64],
    totals: &[i64],
    node: i64,
    microvolts: &mut i64,
    ticks: &mut i64,
) -> u32
    requires { Reached board }
    ensures { Shown (showed_lent (state_in board volts.now totals.now) node)
        microvolts.old microvolts.new ticks.old ticks.new result }
{
    let asked = board.read_node(volts, totals, node);
    let answer = asked.answer;
    host_values::tell_node(answer, microvolts, ticks)
}

// The currents of a transistor's branches at the start of the lent buffer: 12, then 5 where it has not room for all.
pub fn read_currents(board: Board, transistor: i64, currents: &mut [i64]) -> u32
    requires { Reached board }
    ensures { Opened (opened_of (bare (model_of board)) transistor) currents.old
        currents.new result }
{
    let asked = board.read_currents(transistor);
    let answer = asked.answer;
    let ticks = asked.ticks;
    let code = host_words::result_of(answer);
    if code != 0 {
        return code;
    }
    if host_numbers::put_numbers(&ticks, currents) {
        return 0;
    }
    refusal::number(Refusal::ShortOutput)
}

// Who names a node, in rising order at the start of the lent buffer; how many they are goes to the lent place.
pub fn list_node(board: Board, node: i64, list: &mut [u32], count: &mut u32) -> u32
    requires { Reached board }
    ensures { Listed (listed_of (bare (model_of board)) node (length list.old)) list.old
        list.new count.old count.new result }
{
    let asked = board.list_node(node, list);
    let answer = asked.answer;
    host_values::tell_count(answer, count)
}

// A node summed up, in the lent places.
pub fn sum_up(
    board: Board,
    node: i64,
    transistors: &mut u32,
    cards: &mut u32,
    largest: &mut u64,
) -> u32
    requires { Reached board }
    ensures { SummedUp (summed_of (bare (model_of board)) node) transistors.old
        transistors.new cards.old cards.new largest.old
        largest.new result }
{
    let asked = board.sum_up(node);
    let answer = asked.answer;
    host_values::tell_sum(answer, transistors, cards, largest)
}
