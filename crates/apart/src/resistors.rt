// T's of a card's series resistors at given voltages.
ghost use Rattle.std.specs.Prelude.{◌≡◌, map, ◌+◌, eqb, get_or, pos, ◌-ℤ◌};
ghost use Rattle.volts.specs.Volts.{given_back};
ghost use Rattle.terms.specs.Values.{bias_of};
ghost use Rattle.terms.specs.inner.Terms.{Lead, Led, Wired, LeadsOf};

use float::Split;
use terms::card::WorkedCard;
use terms::reverse::Pair;
use terms::roles::{B, B1, C, C1, C3, C4, E, E1};
use terms::scaling::through;
use terms::{Leads, ROLES};

// A resistor from role p to role q: what it adds where p is higher, and what it takes away where q is.
fn lead(g: Split, v: &[u32; ROLES], p: usize, q: usize) -> Pair
    requires { Lead g v.now p q }
    ensures { Led g
        (get_or (map given_back v.now) p (pos 0) -ℤ get_or (map given_back v.now) q (pos 0))
        (get_or (map given_back v.now) q (pos 0) -ℤ get_or (map given_back v.now) p (pos 0)) result }
{
    let a = v[p];
    let b = v[q];
    if a < b {
        return Pair {
            plus: 0,
            minus: through(g, (b - a) as u64),
        };
    }
    Pair {
        plus: through(g, (a - b) as u64),
        minus: 0,
    }
}

// Whether all five are 0.
fn none_of(a: u32, b: u32, c: u32, d: u32, e: u32) -> bool
    ensures { result ≡ eqb (a + b + c + d + e) 0 }
{
    a == 0 && b == 0 && c == 0 && d == 0 && e == 0
}

// All five; a card that has none is left at once.
pub fn all_leads(c: WorkedCard, v: &[u32; ROLES]) -> Leads
    requires { Wired c v.now }
    ensures { LeadsOf c (bias_of (map given_back v.now)) result }
{
    if none_of(c.ge.a, c.gbc.a, c.gcc.a, c.gblx.a, c.gbli.a) {
        let none = Pair { plus: 0, minus: 0 };
        return Leads {
            e: none,
            b: none,
            c: none,
            blx: none,
            bli: none,
        };
    }
    Leads {
        e: lead(c.ge, v, E, E1),
        b: lead(c.gbc, v, B, B1),
        c: lead(c.gcc, v, C, C3),
        blx: lead(c.gblx, v, C3, C4),
        bli: lead(c.gbli, v, C4, C1),
    }
}
