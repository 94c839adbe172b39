// A card loaded from where it is written: a library that holds it by a name, or its model line.
#![tactic(auto)]

ghost use Rattle.std.specs.Prelude.{◌≡◌};
ghost use Rattle.model.specs.Model.{refuse};
ghost use Rattle.lending.specs.Rest.{bare};
ghost use Rattle.board.specs.Promise.{model_of, given_as, Reached};
ghost use Rattle.fetching.specs.Fetched.{name_loaded_of, line_loaded_of};

pub use board;
use board::{Answer, Answered, Board};
use refusal::Refusal;
use terms::BRANCHES;

// Refused before the board is asked.
fn refused(board: Board, f: Refusal) -> Answered
    requires { Reached board }
    ensures value { result ≡ given_as (refuse (bare (model_of board)) f) }
    ensures reached { Reached result.board }
{
    Answered {
        board,
        answer: Answer::Refused(f),
        ticks: [0i64; BRANCHES],
    }
}

// The card of a name in a library: what finding it refuses, then what loading does.
pub fn load_named(board: Board, name: &[u8], library: &[u8]) -> Answered
    requires { Reached board }
    ensures value { result ≡ given_as (name_loaded_of (bare (model_of board)) name.now library.now) }
    ensures reached { Reached result.board }
{
    match library::locate(library, name) {
        Ok(place) => board.load(name, saying::part(library, place.at, place.size)),
        Err(f) => refused(board, f),
    }
}

// The card of a line, without spaces at its ends: what reading it refuses, then what loading does.
// (never written into its callers, whose copies of the board would add to its own: docs/HOST.md)
#[inline(never)]
pub fn load_line(board: Board, line: &[u8]) -> Answered
    requires { Reached board }
    ensures value { result ≡ given_as (line_loaded_of (bare (model_of board)) line.now) }
    ensures reached { Reached result.board }
{
    let mut name = [0; name::LENGTH];
    let mut rec = [0; line_read::RECORD_BYTES];
    if let Err(f) = line_read::read_line(line, &mut name, &mut rec) {
        return refused(board, f);
    }
    board.load(listed::bare_name(&name), &rec)
}
