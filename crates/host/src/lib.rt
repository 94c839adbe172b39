// The desk as a static library: functions that a program in another language calls over memory that it owns and lends.
// Its header is host/desk.h.
// The board stands behind a reference. A call that changes it hands a copy to its worker and writes back the board that
// comes out; a call that only reads lends what it reads, and the copy is never made. One call takes a board's arrays
// one by one, and nothing is copied.
// 0 is done; any other result is a refusal's number. What a host has to keep is asked once: that the board is one that
// desk_fresh began and these calls left.
#![tactic(auto)]

ghost use Rattle.std.specs.Prelude.{[], ◌∷◌, length};
ghost use Rattle.model.specs.Model.{loaded_of, withdrawn_of, looked_of, opened_of, listed_of, summed_of};
ghost use Rattle.lending.specs.Rest.{Rest, bare};
ghost use Rattle.lending.specs.Lending.{moved_lent, lifted_lent, showed_lent};
ghost use Rattle.lending.specs.Reached as lending;
ghost use Rattle.lending.specs.inner.Lent.{state_with, Lends};
ghost use Rattle.host_queries.specs.OfBoard.Promise.{model_of, state_in, given_as, Reached};
ghost use Rattle.host_lent.specs.InPlace.{MovedInPlace};
ghost use Rattle.host_moves.specs.OfHostChanges.Changes.{Leaves, Begun, Loaded};
ghost use Rattle.host_moves.specs.Moves.{Moved, Lifted};
ghost use Rattle.host_placing.specs.Placing.{placing_of, Placed};
ghost use Rattle.host_queries.specs.Queries.{LookedUp, Shown, Opened, Listed, SummedUp};
ghost use Rattle.host_lines.specs.OfFetching.Fetched.{line_loaded_of};
ghost use Rattle.host_shelf.specs.Shelf.{ReadOut, Found};

use host_moves::host_changes;
use host_queries::board::Board;
use places::TRANSISTORS;
use totals::NODES;

// ---- the library

#[unsafe(no_mangle)]
pub extern "C" fn desk_read_library(
    library: &[u8],
    names: &mut [u8],
    words: &mut [u64],
    cards: &mut u32,
    version: &mut u32,
) -> u32
    ensures { ReadOut library.now names.old names.new words.old
        words.new cards.old cards.new version.old version.new result }
{
    host_shelf::read(library, names, words, cards, version)
}

#[unsafe(no_mangle)]
pub extern "C" fn desk_find(library: &[u8], name: &[u8], at: &mut usize, size: &mut usize) -> u32
    ensures { Found library.now name.now at.old at.new
        size.old size.new result }
{
    host_shelf::find(library, name, at, size)
}

// ---- calls that change the board

#[unsafe(no_mangle)]
pub extern "C" fn desk_fresh(board: &mut Board, volts: &mut [i64], totals: &mut [i64]) -> u32
    ensures { Begun board.old board.new volts.old volts.new
        totals.old totals.new result }
{
    let o = host_changes::fresh(*board, volts, totals);
    *board = o.board;
    o.code
}

#[unsafe(no_mangle)]
pub extern "C" fn desk_load(board: &mut Board, name: &[u8], bytes: &[u8], issue: &mut u32) -> u32
    requires { Reached board.old }
    ensures { Loaded (loaded_of (bare (model_of board.old)) name.now bytes.now)
        board.new issue.old issue.new result }
{
    let o = host_changes::load(*board, name, bytes, issue);
    *board = o.board;
    o.code
}

#[unsafe(no_mangle)]
pub extern "C" fn desk_load_line(board: &mut Board, line: &[u8], issue: &mut u32) -> u32
    requires { Reached board.old }
    ensures { Loaded (line_loaded_of (bare (model_of board.old)) line.now) board.new
        issue.old issue.new result }
{
    let o = host_lines::load_line(*board, line, issue);
    *board = o.board;
    o.code
}

#[unsafe(no_mangle)]
pub extern "C" fn desk_place(
    board: &mut Board,
    volts: &[i64],
    totals: &mut [i64],
    card: i64,
    nodes: &[i64],
    issue: &mut u32,
    who: &mut u32,
    branch: &mut u32,
) -> u32
    requires { Reached board.old }
    ensures { Placed (placing_of (state_in board.old volts.now totals.old)
        card nodes.now) board.new totals.new issue.old issue.new
        who.old who.new branch.old branch.new result }
{
    let o = host_placing::place(*board, volts, totals, card, nodes, issue, who, branch);
    *board = o.board;
    o.code
}

#[unsafe(no_mangle)]
pub extern "C" fn desk_move(
    board: &mut Board,
    volts: &mut [i64],
    totals: &mut [i64],
    node: i64,
    microvolts: i64,
    who: &mut u32,
    branch: &mut u32,
) -> u32
    requires { Reached board.old }
    ensures { Moved (moved_lent (state_in board.old volts.old totals.old)
        (node ∷ microvolts ∷ [])) board.new volts.new totals.new who.old
        who.new branch.old branch.new result }
{
    let o = host_moves::move_to(*board, volts, totals, node, microvolts, who, branch);
    *board = o.board;
    o.code
}

#[unsafe(no_mangle)]
pub extern "C" fn desk_move_all(
    board: &mut Board,
    volts: &mut [i64],
    totals: &mut [i64],
    pairs: &[i64],
    who: &mut u32,
    branch: &mut u32,
) -> u32
    requires { Reached board.old }
    ensures { Moved (moved_lent (state_in board.old volts.old totals.old)
        pairs.now) board.new volts.new totals.new who.old
        who.new branch.old branch.new result }
{
    let o = host_moves::move_all(*board, volts, totals, pairs, who, branch);
    *board = o.board;
    o.code
}

// The same on a board's own arrays: of a board that calls left, these are what a move reads, and the currents held are
// all that it changes.
#[unsafe(no_mangle)]
pub extern "C" fn desk_move_lent(
    volts: &mut [i64],
    totals: &mut [i64],
    currents: &mut [i64; places::ALL_CURRENTS],
    numbers: &[u32; deck::ALL_NUMBERS],
    powers: &[u16; deck::ALL_POWERS],
    ticks: &[u64; deck::ALL_TICKS],
    switches: &[bool; deck::ALL_SWITCHES],
    issues: &[u32; TRANSISTORS],
    seats: &[u8; TRANSISTORS],
    nodes: &[u8; places::ALL_NODES],
    naming: &[u64; NODES],
    pairs: &[i64],
    who: &mut u32,
    branch: &mut u32,
) -> u32
    requires { (b : Rest) × lending.Reached b × Lends b numbers.now powers.now ticks.now switches.now
        issues.now seats.now nodes.now naming.now currents.old }
    ensures { (b : Rest) → lending.Reached b → Lends b numbers.now powers.now
        ticks.now switches.now issues.now seats.now nodes.now
        naming.now currents.old → MovedInPlace (moved_lent (state_with b volts.old
        totals.old) pairs.now) volts.new totals.new currents.new
        who.old who.new branch.old branch.new result }
{
    host_lent::move_lent(
        volts, totals, currents, numbers, powers, ticks, switches, issues, seats, nodes, naming,
        pairs, who, branch,
    )
}

#[unsafe(no_mangle)]
pub extern "C" fn desk_lift(
    board: &mut Board,
    volts: &[i64],
    totals: &mut [i64],
    transistor: i64,
) -> u32
    requires { Reached board.old }
    ensures { Lifted (lifted_lent (state_in board.old volts.now totals.old)
        transistor) board.new totals.new result }
{
    let o = host_moves::lift(*board, volts, totals, transistor);
    *board = o.board;
    o.code
}

#[unsafe(no_mangle)]
pub extern "C" fn desk_withdraw(board: &mut Board, card: i64) -> u32
    requires { Reached board.old }
    ensures { Leaves (given_as (withdrawn_of (bare (model_of board.old)) card)) board.new result }
{
    let o = host_changes::withdraw(*board, card);
    *board = o.board;
    o.code
}

// ---- calls that only read it

#[unsafe(no_mangle)]
pub extern "C" fn desk_look_up(board: &Board, name: &[u8], issue: &mut u32) -> u32
    requires { Reached board.now }
    ensures { LookedUp (looked_of (bare (model_of board.now)) name.now) issue.old
        issue.new result }
{
    host_queries::look_up(*board, name, issue)
}

#[unsafe(no_mangle)]
pub extern "C" fn desk_read_node(
    board: &Board,
    volts: &[i64],
    totals: &[i64],
    node: i64,
    microvolts: &mut i64,
    ticks: &mut i64,
) -> u32
    requires { Reached board.now }
    ensures { Shown (showed_lent (state_in board.now volts.now totals.now) node)
        microvolts.old microvolts.new ticks.old ticks.new result }
{
    host_queries::read_node(*board, volts, totals, node, microvolts, ticks)
}

#[unsafe(no_mangle)]
pub extern "C" fn desk_read_currents(board: &Board, transistor: i64, currents: &mut [i64]) -> u32
    requires { Reached board.now }
    ensures { Opened (opened_of (bare (model_of board.now)) transistor) currents.old
        currents.new result }
{
    host_queries::read_currents(*board, transistor, currents)
}

#[unsafe(no_mangle)]
pub extern "C" fn desk_list_node(board: &Board, node: i64, list: &mut [u32], count: &mut u32) -> u32
    requires { Reached board.now }
    ensures { Listed (listed_of (bare (model_of board.now)) node (length list.old))
        list.old list.new count.old count.new result }
{
    host_queries::list_node(*board, node, list, count)
}

#[unsafe(no_mangle)]
pub extern "C" fn desk_sum_up(
    board: &Board,
    node: i64,
    transistors: &mut u32,
    cards: &mut u32,
    largest: &mut u64,
) -> u32
    requires { Reached board.now }
    ensures { SummedUp (summed_of (bare (model_of board.now)) node) transistors.old
        transistors.new cards.old cards.new largest.old
        largest.new result }
{
    host_queries::sum_up(*board, node, transistors, cards, largest)
}
