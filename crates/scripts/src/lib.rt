// Theorems over the commands of a script: whatever lines the desk obeys, its board beside the slices is one that calls
// left, so that all that holds after calls holds after a script. No code.
#![tactic(auto)]
