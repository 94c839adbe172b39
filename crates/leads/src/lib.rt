// What series resistors do: theorems only, and no code.
#![tactic(auto)]
