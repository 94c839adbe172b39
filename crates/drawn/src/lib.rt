// What is worked of the clipped numbers: the parameters, with their resistances where there are resistors.
#![tactic(auto)]

ghost use Rattle.std.specs.Prelude.{◌≡◌, cond};
ghost use Rattle.loading.specs.OfClip.Limits.{zero};
ghost use Rattle.loading.specs.Numbers.{has_leads, parameters_of};

use loading::clip::{WIDTH, numbers};
use loading::working::Parameters;
pub use loading::{clip, working};

// Whether there are series resistors: version 1, which has none, means R_E 0.
pub fn has_leads(x: &[f64; WIDTH]) -> bool
    ensures { result ≡ has_leads x.now }
{
    0.0 < x[numbers::RE]
}

// A resistance, where there are resistors.
fn where_any(leads: bool, r: f64) -> f64
    ensures { result ≡ cond leads r zero }
{
    if leads { r } else { 0.0 }
}

// Those that are worked.
pub fn parameters(x: &[f64; WIDTH]) -> Parameters
    ensures { result ≡ parameters_of x.now }
{
    let leads = has_leads(x);
    Parameters {
        mult: x[numbers::MULT],
        is: x[numbers::IS],
        ik: x[numbers::IK],
        bf: x[numbers::BF],
        xibi: x[numbers::XIBI],
        ibf: x[numbers::IBF],
        bri: x[numbers::BRI],
        iss: x[numbers::ISS],
        icss: x[numbers::ICSS],
        iks: x[numbers::IKS],
        ibr: x[numbers::IBR],
        re: where_any(leads, x[numbers::RE]),
        rbc: where_any(leads, x[numbers::RBC]),
        rcc: where_any(leads, x[numbers::RCC]),
        rcblx: where_any(leads, x[numbers::RCBLX]),
        rcbli: where_any(leads, x[numbers::RCBLI]),
    }
}
