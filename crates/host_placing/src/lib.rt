// What a host's call does that stands a transistor on a board. It takes the board by value, and after it what the host
// lends; it gives the next board beside the result of the call, 0 or a refusal's number.
#![tactic(auto)]

ghost use Rattle.std.specs.Prelude.{◌≡◌};
ghost use Rattle.host_changes.specs.OfBoard.Promise.{state_in, Reached};
ghost use Rattle.host_placing.specs.Placing.{is_list, placing_of, Placed};

use host_changes::Outcome;
use host_changes::board::Board;
use terms::ROLES;

// A list of nodes without those of the leads.
const INNER: usize = 7;

fn is_list(nodes: &[i64]) -> bool
    ensures { result ≡ is_list nodes.now }
{
    nodes.len() == INNER || nodes.len() == ROLES
}

// A transistor on a card and on the nodes of a list, of seven or of eleven: 1 for the list. Its number goes to one lent
// place, who overloads in which branch to two others.
pub fn place(
    board: Board,
    volts: &[i64],
    totals: &mut [i64],
    card: i64,
    nodes: &[i64],
    issue: &mut u32,
    who: &mut u32,
    branch: &mut u32,
) -> Outcome
    requires { Reached board }
    ensures { Placed (placing_of (state_in board volts.now totals.old) card
        nodes.now) result.board totals.new issue.old issue.new
        who.old who.new branch.old branch.new result.code }
{
    if is_list(nodes) {
        let placed = board.place(volts, totals, card, roles::roles_of(nodes));
        return Outcome {
            board: placed.board,
            code: host_words::tell_placed(placed.answer, issue, who, branch),
        };
    }
    Outcome { board, code: 1 }
}
