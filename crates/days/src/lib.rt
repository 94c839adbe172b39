// Days of calls on a board: theorems only, and no code. Over any list of calls the board follows the desk of its
// definitions; what that says of totals, numbers and cards stands in proofs/.
#![tactic(auto)]
