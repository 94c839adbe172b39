// What a host's call does that loads a card from its model line.
#![tactic(auto)]

ghost use Rattle.lending.specs.Rest.{bare};
ghost use Rattle.fetching.specs.OfBoard.Promise.{model_of, Reached};
ghost use Rattle.host_changes.specs.Changes.{Loaded};
ghost use Rattle.fetching.specs.Fetched.{line_loaded_of};

use fetching::board::Board;
use host_changes::Outcome;

// The card of a line, without spaces at its ends: what reading it refuses, then what loading does. Its number goes to
// the lent place.
pub fn load_line(board: Board, line: &[u8], issue: &mut u32) -> Outcome
    requires { Reached board }
    ensures { Loaded (line_loaded_of (bare (model_of board)) line.now) result.board
        issue.old issue.new result.code }
{
    let loaded = fetching::load_line(board, line);
    Outcome {
        board: loaded.board,
        code: host_words::tell_issue(loaded.answer, issue),
    }
}
