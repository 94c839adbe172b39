// A set of places brought to new voltages: what comes of it, and the first of the places that overloads. Definitions,
// laws and a step of the way; the way itself is in `settling`.
#![tactic(auto)]

ghost use Rattle.std.specs.Prelude.{◌≡◌};
ghost use Rattle.settle.specs.First.{earlier};

use flows::polarity::Over;
pub use flows::{is_over, put_in, refusal_of, work};

// A transistor that overloads, by its issue number, and by what it does.
#[derive(Clone, Copy)]
pub struct First {
    pub issue: u32,
    pub over: Over,
}

// Of one that was found and another, the one of the lower issue number that overloads.
pub fn earlier_of(a: Option<First>, issue: u32, over: Option<Over>) -> Option<First>
    ensures { result ≡ earlier a issue over }
{
    if !is_over(over) {
        return a;
    }
    if let Some(first) = a {
        if first.issue <= issue {
            return a;
        }
    }
    over.map(|over| First { issue, over })
}
