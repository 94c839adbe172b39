// Terms that are worked apart: X of row 6, row 8 whole, and those of the series resistors. Above its limit a number
// need not be right, but only above it.
#![tactic(auto)]

ghost use Rattle.std.specs.Prelude.{map};
ghost use Rattle.volts.specs.Volts.{given_back};
ghost use Rattle.terms.specs.OfScaling.Scaled.{tick_limit};
ghost use Rattle.terms.specs.OfScaling.inner.Shifts.{UpTo};
ghost use Rattle.terms.specs.Rows.{term_x, reverse, row8};
ghost use Rattle.terms.specs.Rows as rows;
ghost use Rattle.terms.specs.Values.{bias_of, tick_of};
ghost use Rattle.terms.specs.inner.Ready.{Askable};
ghost use Rattle.terms.specs.inner.Terms.{Whole};

mod resistors; // resistors.rt: T's of the series resistors

use octave::Table;
pub use resistors::all_leads;
pub use terms;
use terms::reverse::Pair;
use terms::roles::{B1, C4, S};
pub use terms::scaling;
use terms::scaling::{exponential, faint, scaled};
use terms::{ROLES, Ready, reverse};

// X of row 6: the card's own T, or with EXSUB the T at the voltage from S to C4.
pub fn term_x(t: &Table, r: Ready, v: &[u32; ROLES]) -> u64
    requires { Askable t.now r v.now }
    ensures { UpTo tick_limit result (tick_of r.card (bias_of (map given_back v.now))
        (term_x r.card.exsub)) }
{
    let c = r.card;
    if c.exsub {
        scaled(c.sub, exponential(t, v, S, C4, r.plain), 0)
    } else {
        r.sub
    }
}

// Row 8, worked whole: nothing where its value is 0.
pub fn term_8(t: &Table, r: Ready, v: &[u32; ROLES]) -> Pair
    requires { Askable t.now r v.now }
    ensures { Whole r.card (bias_of (map given_back v.now)) row8 reverse rows.B1 rows.C4 result.plus
        result.minus }
{
    let c = r.card;
    let s = c.reverse;
    if s.a == 0 {
        return Pair { plus: 0, minus: 0 };
    }
    let plain = exponential(t, v, B1, C4, r.plain);
    let doubled = exponential(t, v, B1, C4, r.doubled);
    let plus = faint(s, plain, 0);
    let sum = reverse::sum_of(doubled, r.knee);
    reverse::over_sum(plus, r.reverse, sum)
}
