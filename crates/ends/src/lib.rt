// At which roles the branches start and end, and what a card looks at of the numbers given for the roles.
#![tactic(auto)]

ghost use Rattle.std.specs.Prelude.{◌≡◌};
ghost use Rattle.terms.specs.Ends.{from_roles, to_roles};
ghost use Rattle.terms.specs.Looked.{looked_at};

pub use terms;
use terms::roles::{B, B1, B2, C, C1, C2, C3, C4, E, E1, S};
use terms::{BRANCHES, ROLES};

// The roles at which the branches start.
pub fn from_roles() -> [u8; BRANCHES]
    ensures { result ≡ from_roles }
{
    [
        C2 as u8, B2 as u8, B1 as u8, B2 as u8, B1 as u8, B1 as u8, S as u8, B1 as u8, E as u8,
        B as u8, C as u8, C3 as u8, C4 as u8,
    ]
}

// The roles at which they end.
pub fn to_roles() -> [u8; BRANCHES]
    ensures { result ≡ to_roles }
{
    [
        E1 as u8, E1 as u8, E1 as u8, E1 as u8, C4 as u8, S as u8, C1 as u8, // row 7
        C4 as u8, E1 as u8, B1 as u8, C3 as u8, C4 as u8, C1 as u8,
    ]
}

// All of them, or without series resistors the seven, with E1's for E, B1's for B and C4's for C and C3.
pub fn looked_at(wide: bool, given: [i64; ROLES]) -> [i64; ROLES]
    ensures { result ≡ looked_at wide given }
{
    if wide {
        return given;
    }
    [
        given[E1], given[B1], given[B2], given[C1], given[C2], given[C4], given[S], given[E1],
        given[B1], given[C4], given[C4],
    ]
}
