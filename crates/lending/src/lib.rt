// The board in lent memory: definitions only, and no code. What each call answers, which board it gives back and which
// numbers it leaves in the two lent slices, for slices with any numbers in them; and when a board is reached.
#![tactic(auto)]

pub use model;
