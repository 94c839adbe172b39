// What reading and writing model lines do together: theorems only, and no code. Reading the line that is written for a
// card gives the card back.
#![tactic(auto)]
