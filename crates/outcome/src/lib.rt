// Which row of a transistor's branches overloads first, and the outcome of all rows.
#![tactic(auto)]

ghost use Rattle.std.specs.Prelude.{◌≡◌, map, ◌≤◌};
ghost use Rattle.volts.specs.Volts.{given_back};
ghost use Rattle.rows.specs.OfTerms.Rows.{branches};
ghost use Rattle.rows.specs.OfTerms.Values.{bias_of};
ghost use Rattle.rows.specs.OfTerms.inner.Ready.{Askable};
ghost use Rattle.rows.specs.Outcome.{outcome_across};
ghost use Rattle.rows.specs.inner.FromTerms.{Most, over_up, outcome_from};

use octave::Table;
pub use rows;
use rows::Over;
pub use rows::terms;
use rows::terms::{BRANCHES, ROLES, Ready, TICKS_MOST, Terms};

// The most that a ratio's floor may be.
const PARTS_MOST: u64 = 1099511627776;

// The binary digits of both numbers, so that neither is above it.
fn digits(a: u64, b: u64) -> u64
    ensures { (a ≤ result) × (b ≤ result) }
{
    a | b
}

// The binary digits of all numbers of two lists, so that none is above it.
fn all_digits(a: &[u64; BRANCHES], b: &[u64; BRANCHES]) -> u64
    ensures { Most a.now b.now result }
{
    let mut all: u64 = 0;
    for k in 0..BRANCHES {
        all = digits(all, digits(a[k], b[k]));
    }
    all
}

// The first row that overloads, where any does.
fn first_over(x: Terms) -> Option<Over>
    ensures { result ≡ over_up x branches 0 }
{
    for k in 0..BRANCHES {
        let number = k as u32 + 1;
        if TICKS_MOST < x.plus[k] {
            return Some(Over::Ticks(number));
        }
        if TICKS_MOST < x.minus[k] {
            return Some(Over::Ticks(number));
        }
        if PARTS_MOST < x.left[k] {
            return Some(Over::Injection(number));
        }
        if PARTS_MOST < x.right[k] {
            return Some(Over::Injection(number));
        }
    }
    None
}

// The first row that overloads, where any does. Where the digits of all floors and of all T's stay within the limits,
// none does, and no row is looked at by itself.
fn judged(x: Terms) -> Option<Over>
    ensures { result ≡ over_up x branches 0 }
{
    let left = x.left;
    let right = x.right;
    if all_digits(&left, &right) <= PARTS_MOST {
        let plus = x.plus;
        let minus = x.minus;
        if all_digits(&plus, &minus) <= TICKS_MOST {
            return None;
        }
    }
    first_over(x)
}

fn outcome(x: Terms) -> Result<[i64; BRANCHES], Over>
    ensures { result ≡ outcome_from x }
{
    match judged(x) {
        None => Ok(rows::all_divided(x)),
        Some(o) => Err(o),
    }
}

// The outcome of a card made ready at the kept voltages of its roles, as an NPN has it. The table is lent, so that a
// caller makes it once.
pub fn work_out(t: &Table, r: Ready, v: &[u32; ROLES]) -> Result<[i64; BRANCHES], Over>
    requires { Askable t.now r v.now }
    ensures { result ≡ outcome_across r.card (bias_of (map given_back v.now)) }
{
    outcome(values::all_terms(t, r, v))
}
