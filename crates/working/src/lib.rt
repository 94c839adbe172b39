// The fifteen worked values of a card, in f64 with one rounding per operation.
#![tactic(auto)]

ghost use Rattle.std.specs.Prelude.{◌≡◌};
ghost use Rattle.working.specs.Work.{conductance_of, worked_of, values_of, all_finite};

pub use clip;
use clip::float;

// How many values are worked.
const VALUES: usize = 15;

// Microvolts of a volt.
pub const MICROVOLTS: f64 = 1000000.0;

// Clipped parameters, under the names that document 003 gives them.
#[derive(Clone, Copy)]
pub struct Parameters {
    pub mult: f64,
    pub is: f64,
    pub ik: f64,
    pub bf: f64,
    pub xibi: f64,
    pub ibf: f64,
    pub bri: f64,
    pub iss: f64,
    pub icss: f64,
    pub iks: f64,
    pub ibr: f64,
    pub re: f64,
    pub rbc: f64,
    pub rcc: f64,
    pub rcblx: f64,
    pub rcbli: f64,
}

#[derive(Clone, Copy)]
pub struct Worked {
    pub sn: f64,
    pub bulk: f64,
    pub side: f64,
    pub nonideal: f64,
    pub ex: f64,
    pub sub: f64,
    pub sf: f64,
    pub rex: f64,
    pub rsub: f64,
    pub reverse: f64,
    // what each resistor lets through at a microvolt
    pub ge: f64,
    pub gbc: f64,
    pub gcc: f64,
    pub gblx: f64,
    pub gbli: f64,
}

// What a resistor lets through at a microvolt; a resistance of 0 has no such value.
fn conductance(mult: f64, r: f64) -> f64
    ensures { result ≡ conductance_of mult r }
{
    if r == 0.0 {
        0.0
    } else {
        mult / (r * MICROVOLTS)
    }
}

pub fn work(p: Parameters) -> Worked
    ensures { result ≡ worked_of p }
{
    let sn = p.is * p.mult;
    Worked {
        sn,
        bulk: ((1.0 - p.xibi) * sn) / p.bf,
        side: (p.xibi * sn) / p.bf,
        nonideal: p.ibf * p.mult,
        ex: sn / p.bri,
        sub: p.iss * p.mult,
        sf: p.icss * p.mult,
        rex: (4.0 * p.is) / p.ik,
        rsub: (4.0 * p.is) / p.iks,
        reverse: p.ibr * p.mult,
        ge: conductance(p.mult, p.re),
        gbc: conductance(p.mult, p.rbc),
        gcc: conductance(p.mult, p.rcc),
        gblx: conductance(p.mult, p.rcblx),
        gbli: conductance(p.mult, p.rcbli),
    }
}

// The values in a row.
fn values(w: Worked) -> [f64; VALUES]
    ensures { result ≡ values_of w }
{
    [
        w.sn, w.bulk, w.side, w.nonideal, w.ex, w.sub, w.sf, w.rex, w.rsub, w.reverse, w.ge, w.gbc,
        w.gcc, w.gblx, w.gbli,
    ]
}

// Whether all fifteen are finite.
pub fn all_finite(w: Worked) -> bool
    ensures { result ≡ all_finite w }
{
    values(w).iter().all(|&x| float::is_finite(x))
}
