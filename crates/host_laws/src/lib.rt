// What the calls of a host in another language promise, looked at from outside: theorems only, and no code. A call has
// one outcome, and a refused one changes nothing; a move on a board's own arrays is the move of that board.
#![tactic(auto)]
