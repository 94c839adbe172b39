// The board in lent memory is the board that was: theorems only, and no code. Over slices that a board's own fresh call
// filled and only its calls have written since, each call answers and leaves what the board with them inside would.
#![tactic(auto)]
