// Theorems on polarity: a transistor and a whole board of the other polarity, at negated voltages. There is no code
// here.
#![tactic(auto)]
