// A node's transistors listed, and the sheet of the evening, put on the page.
#![tactic(auto)]

ghost use Rattle.page.specs.Page.{Writes};
ghost use Rattle.lending.specs.Rest.{bare};
ghost use Rattle.board.specs.Promise.{model_of, state_in, Reached};
ghost use Rattle.evening.specs.Said.{who_said, rows_said, sheet_said};

use answers::{Answer, answer_line};
pub use board;
use board::Board;
use page::{Page, ROOM};
use places::TRANSISTORS;
use saying::put_refused;
use telling::{put_listed, put_row};

// Who names a node.
pub fn list_node(board: Board, node: i64, page: &mut Page<ROOM>)
    requires { Reached board }
    ensures { Writes (who_said (bare (model_of board)) node) page.old page.new }
{
    let mut list = [0u32; TRANSISTORS];
    let asked = board.list_node(node, &mut list);
    put_listed(asked.answer, &list, page);
}

fn put_rows(board: Board, volts: &[i64], totals: &[i64], page: &mut Page<ROOM>)
    requires { Reached board }
    ensures { Writes (rows_said (state_in board volts.now totals.now)) page.old page.new }
{
    answer_line(Answer::Sheet, page);
    for n in 0u32..32 {
        put_row(n, board.read_node(volts, totals, n as i64).answer, page);
    }
}

// The sheet of the evening; no sheet is made where a voltage is outside its range.
pub fn put_sheet(board: Board, volts: &[i64], totals: &[i64], page: &mut Page<ROOM>)
    requires { Reached board }
    ensures { Writes (sheet_said (state_in board volts.now totals.now)) page.old page.new }
{
    match board.read_node(volts, totals, 0).answer {
        board::Answer::Refused(f) => put_refused(f, page),
        _ => put_rows(board, volts, totals, page),
    }
}
