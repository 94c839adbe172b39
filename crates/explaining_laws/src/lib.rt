// What explanations say: theorems only, and no code. The line that answers a refusal is explained by the sentence of
// its number, with its transistor and its branch, in the room there is; and the ends of a branch are those of its row.
#![tactic(auto)]
