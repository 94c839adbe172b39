// A call of the board that a command makes, and its answer put on the page.
#![tactic(auto)]

ghost use Rattle.asking.specs.OfBoard.Promise.{state_in, Reached};
ghost use Rattle.asking.specs.Asked.{asked_of};
ghost use Rattle.calling.specs.Calls.{Calls};

use asking::board::Board;
use asks::Call;
use page::{Page, ROOM};
use script::{Command, MOST_BYTES};

// A call of the board, and what is said of its answer; the bytes that the line's hex digits spell begin `spelled`.
pub fn make(
    board: Board,
    volts: &mut [i64],
    totals: &mut [i64],
    call: Call,
    c: Command,
    line: &[u8],
    spelled: &[u8; MOST_BYTES],
    library: &[u8],
    page: &mut Page<ROOM>,
) -> Board
    requires { Reached board }
    ensures calls { Calls (asked_of (state_in board volts.old totals.old) call c
        line.now spelled.now library.now) call c
        result volts.new totals.new
        page.old page.new }
    ensures reached { Reached result }
{
    let asked = asking::ask(board, volts, totals, call, c, line, spelled, library);
    telling::tell(call, c.numbers[0], asked.answer, &asked.ticks, page);
    asked.board
}
