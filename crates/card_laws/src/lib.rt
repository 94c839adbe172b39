// What is sure of a judged card: theorems only, and no code.
#![tactic(auto)]

pub use card;
