// The two lent slices of a board, 32 voltages and 32 totals, whatever they hold: what is kept of them, and how their
// totals would stand. Definitions and laws; the code is in `keeping`, `standing` and `putting`.
#![tactic(auto)]

pub use given::totals;
