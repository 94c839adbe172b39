// What reading and writing numbers do together: theorems only, and no code. What is written for a word reads back to
// it, nothing shorter does, and some worked numbers have the words that they should.
#![tactic(auto)]
