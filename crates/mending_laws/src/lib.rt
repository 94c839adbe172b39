// What mending does to a library: theorems only, and no code. Nothing but a negative I_CSs changes, what comes out is a
// sound library of which no card draws 19, and mending it again changes nothing.
#![tactic(auto)]
