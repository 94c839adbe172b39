// What loading asks of a card's numbers: definitions and their laws, and no code.
#![tactic(auto)]

pub use working;
pub use working::clip;
