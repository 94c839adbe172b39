// T's and ratios of a card at given voltages. Above its limit a number need not be right, but only above it.
#![tactic(auto)]

ghost use Rattle.std.specs.Prelude.{map};
ghost use Rattle.volts.specs.Volts.{given_back};
ghost use Rattle.apart.specs.OfTerms.Values.{bias_of};
ghost use Rattle.apart.specs.OfTerms.inner.Ready.{Askable};
ghost use Rattle.apart.specs.OfTerms.inner.Terms.{TermsOf};

use apart::scaling::{PARTS, exponential, faint, scaled};
use apart::terms::roles::{B1, B2, C1, C2, C4, E1, S};
use apart::terms::{ROLES, Ready, Terms};
use octave::Table;

// The T's and ratios of all rows: each exponential is worked once. These four arrays are the rows as the code has them.
pub fn all_terms(t: &Table, r: Ready, v: &[u32; ROLES]) -> Terms
    requires { Askable t.now r v.now }
    ensures { TermsOf r.card (bias_of (map given_back v.now)) result }
{
    let c = r.card;
    let b2e1 = exponential(t, v, B2, E1, r.plain);
    let b2c2 = exponential(t, v, B2, C2, r.plain);
    let b1e1 = exponential(t, v, B1, E1, r.plain);
    let second = exponential(t, v, B2, E1, r.second);
    let b1c4 = exponential(t, v, B1, C4, r.plain);
    let sc1 = exponential(t, v, S, C1, r.plain);
    let forward = scaled(c.sn, b2e1, 0);
    let bulk = scaled(c.bulk, b2e1, 0);
    let side = scaled(c.side, b1e1, 0);
    let nonideal = scaled(c.nonideal, second, 0);
    let ex = faint(c.ex, b1c4, 0);
    let sub = faint(c.sub, b1c4, 0);
    let exratio = faint(c.rex, b1c4, PARTS);
    let subratio = faint(c.rsub, b1c4, PARTS);
    let sf = faint(c.sf, sc1, 0);
    let reverse = faint(c.sn, b2c2, 0);
    let knee = scaled(c.rex, b2e1, PARTS);
    let back = faint(c.rex, b2c2, PARTS);
    let x = apart::term_x(t, r, v);
    let eighth = apart::term_8(t, r, v);
    let leads = apart::all_leads(c, v);
    Terms {
        plus: [
            forward,
            bulk,
            side,
            nonideal,
            ex,
            sub,
            sf,
            eighth.plus,
            leads.e.plus,
            leads.b.plus,
            leads.c.plus,
            leads.blx.plus,
            leads.bli.plus,
        ],
        minus: [
            reverse,
            r.bulk,
            r.side,
            r.nonideal,
            r.ex,
            x,
            r.sf,
            eighth.minus,
            leads.e.minus,
            leads.b.minus,
            leads.c.minus,
            leads.blx.minus,
            leads.bli.minus,
        ],
        left: [knee, 0, 0, 0, 0, 0, 0, 0, 0, 0, 0, 0, 0],
        right: [back, 0, 0, 0, exratio, subratio, 0, 0, 0, 0, 0, 0, 0],
    }
}
