// What the two versions of a record have in common: theorems only, and no code.
#![tactic(auto)]
