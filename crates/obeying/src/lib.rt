// A command obeyed, but for what reads a file: whom it asks does what it says, and the answer is put on the page.
// Voltages and totals stand in two slices that are lent to the board.
#![tactic(auto)]

ghost use Rattle.evening.specs.OfBoard.Promise.{state_in, Reached};
ghost use Rattle.obeying.specs.Obeyed.{obeyed_of, Obeys};

use asks::Asks;
pub use evening::board;
use evening::board::Board;
use page::{Page, ROOM};
use script::{Command, MOST_BYTES};
use shelving::MOST;
use totals::NODES;

// A command, by whether it may poke; the bytes that its hex digits spell begin `spelled`.
pub fn obey(
    board: Board,
    volts: &mut [i64; NODES],
    totals: &mut [i64; NODES],
    pokes: bool,
    c: Command,
    line: &[u8],
    spelled: &[u8; MOST_BYTES],
    held: &mut [u8; MOST],
    page: &mut Page<ROOM>,
) -> Board
    requires { Reached board }
    ensures obeys { Obeys (obeyed_of (state_in board volts.old totals.old) held.old
        pokes c line.now spelled.now)
        result volts.new totals.new held.new
        page.old page.new }
    ensures reached { Reached result }
{
    match asks::asked_by(c.verb) {
        Asks::Board(call) => calling::make(
            board,
            volts,
            totals,
            call,
            c,
            line,
            spelled,
            shelving::held(held),
            page,
        ),
        Asks::Who => {
            evening::list_node(board, c.numbers[0], page);
            board
        }
        Asks::Sheet => {
            evening::put_sheet(board, volts, totals, page);
            board
        }
        Asks::Slices => {
            poking::poke(pokes, c, line, volts, totals, page);
            board
        }
        Asks::Apart(what) => {
            shelving::obey_apart(what, c.words, line, held, page);
            board
        }
    }
}
