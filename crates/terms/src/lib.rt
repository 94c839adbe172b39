// What the branches of a card name: its T's and ratios at given voltages, and a card made ready for them. Definitions,
// types and laws; the code is in `ready`, `ends`, `apart` and `values`.
#![tactic(auto)]

pub mod roles; // roles.rt: the roles by their numbers

pub use card_laws::card;
use card_laws::card::WorkedCard;
pub use reverse;
use reverse::Pair;
use reverse::octave::{Exponential, Reciprocal};
pub use reverse::scaling;
pub use reverse::scaling::{PART_PLACES, ROLES, TICKS_MOST};
pub use roles::{C1, C3, C4};

pub const BRANCHES: usize = 13;

// A card with what depends on it alone: the octaves' reciprocals, the exponential of V_Lr, and each T without an
// exponential.
#[derive(Clone, Copy, Default)]
pub struct Ready {
    pub card: WorkedCard,
    pub plain: Reciprocal,
    pub second: Reciprocal,
    pub doubled: Reciprocal,
    pub knee: Exponential,
    pub bulk: u64,
    pub side: u64,
    pub nonideal: u64,
    pub ex: u64,
    pub sub: u64,
    pub sf: u64,
    pub reverse: u64,
}

// The T's that each row adds and takes away, and the floors of the two ratios in its divisor: 0 where it has none,
// whose root is 2^20. Row 8 is worked whole: one of its two numbers is its size, or too much where it overloads.
#[derive(Clone, Copy)]
pub struct Terms {
    pub plus: [u64; BRANCHES],
    pub minus: [u64; BRANCHES],
    pub left: [u64; BRANCHES],
    pub right: [u64; BRANCHES],
}

// What the series resistors add and take away, from E to E1 and so on: one of two numbers is the T, and the other 0.
#[derive(Clone, Copy)]
pub struct Leads {
    pub e: Pair,
    pub b: Pair,
    pub c: Pair,
    pub blx: Pair,
    pub bli: Pair,
}
