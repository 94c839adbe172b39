// How near the table's exponential is to the exact one: theorems only, and no code.
#![tactic(auto)]
