// What is sure of the curves of single branches, voltage against current: theorems only, and no code.
#![tactic(auto)]
