// What a host's calls do that move nodes and lift a transistor. Each takes the board by value, and after it what the
// host lends; it gives the next board beside the result of the call, 0 or a refusal's number.
#![tactic(auto)]

ghost use Rattle.std.specs.Prelude.{[], ◌∷◌};
ghost use Rattle.lending.specs.Lending.{moved_lent, lifted_lent};
ghost use Rattle.host_changes.specs.OfBoard.Promise.{state_in, Reached};
ghost use Rattle.host_moves.specs.Moves.{Moved, Lifted};

pub use host_changes;
use host_changes::Outcome;
use host_changes::board::Board;

// Nodes moved together, by a list of pairs; who overloads in which branch goes to the lent places.
pub fn move_all(
    board: Board,
    volts: &mut [i64],
    totals: &mut [i64],
    pairs: &[i64],
    who: &mut u32,
    branch: &mut u32,
) -> Outcome
    requires { Reached board }
    ensures { Moved (moved_lent (state_in board volts.old totals.old) pairs.now)
        result.board volts.new totals.new who.old who.new branch.old
        branch.new result.code }
{
    let moved = board.move_all(volts, totals, pairs);
    Outcome {
        board: moved.board,
        code: host_words::tell_fault(moved.answer, who, branch),
    }
}

// One node moved.
pub fn move_to(
    board: Board,
    volts: &mut [i64],
    totals: &mut [i64],
    node: i64,
    microvolts: i64,
    who: &mut u32,
    branch: &mut u32,
) -> Outcome
    requires { Reached board }
    ensures { Moved (moved_lent (state_in board volts.old totals.old)
        (node ∷ microvolts ∷ [])) result.board volts.new totals.new who.old
        who.new branch.old branch.new result.code }
{
    let went = board.move_all(volts, totals, &[node, microvolts]);
    Outcome {
        board: went.board,
        code: host_words::tell_fault(went.answer, who, branch),
    }
}

// A transistor taken off.
pub fn lift(board: Board, volts: &[i64], totals: &mut [i64], transistor: i64) -> Outcome
    requires { Reached board }
    ensures { Lifted (lifted_lent (state_in board volts.now totals.old) transistor)
        result.board totals.new result.code }
{
    let lifted = board.lift(volts, totals, transistor);
    Outcome {
        board: lifted.board,
        code: host_words::result_of(lifted.answer),
    }
}
