// What a host's calls do that begin a board and change the cards on it. Each takes the board by value, and after it
// what the host lends; it gives the next board beside the result of the call, 0 or a refusal's number.
#![tactic(auto)]

ghost use Rattle.model.specs.Model.{loaded_of, withdrawn_of};
ghost use Rattle.lending.specs.Rest.{bare};
ghost use Rattle.board.specs.Promise.{model_of, given_as, Reached};
ghost use Rattle.host_changes.specs.Changes.{Leaves, Begun, Loaded};

pub use board;
use board::Board;

// The next board, and the result.
#[derive(Clone, Copy)]
pub struct Outcome {
    pub board: Board,
    pub code: u32,
}

// An empty board, and every voltage and total 0; the board that was there where a slice is refused: 13.
pub fn fresh(board: Board, volts: &mut [i64], totals: &mut [i64]) -> Outcome
    ensures { Begun board result.board volts.old volts.new totals.old
        totals.new result.code }
{
    let begun = Board::fresh(volts, totals);
    let code = host_words::result_of(begun.answer);
    if code == 0 {
        return Outcome {
            board: begun.board,
            code,
        };
    }
    Outcome { board, code }
}

// A card under a name; its number goes to the lent place.
pub fn load(board: Board, name: &[u8], bytes: &[u8], issue: &mut u32) -> Outcome
    requires { Reached board }
    ensures { Loaded (loaded_of (bare (model_of board)) name.now bytes.now) result.board
        issue.old issue.new result.code }
{
    let loaded = board.load(name, bytes);
    Outcome {
        board: loaded.board,
        code: host_words::tell_issue(loaded.answer, issue),
    }
}

// A card given back.
pub fn withdraw(board: Board, card: i64) -> Outcome
    requires { Reached board }
    ensures { Leaves (given_as (withdrawn_of (bare (model_of board)) card)) result.board result.code }
{
    let withdrawn = board.withdraw(card);
    Outcome {
        board: withdrawn.board,
        code: host_words::result_of(withdrawn.answer),
    }
}
