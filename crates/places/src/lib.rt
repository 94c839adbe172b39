// Cards and transistors in places, and finding them.
#![tactic(auto)]

mod finds; // finds.rt: looking through the places

use deck::terms::{BRANCHES, ROLES};
pub use finds::{any_on, find, place_of};
pub use given::totals;

pub const CARDS: usize = deck::CARDS;

pub const TRANSISTORS: usize = 64;

// How long the arrays of names, of nodes and of held currents are.
pub const ALL_NAMES: usize = name::LENGTH * CARDS;

pub const ALL_NODES: usize = ROLES * TRANSISTORS;

pub const ALL_CURRENTS: usize = BRANCHES * TRANSISTORS;
