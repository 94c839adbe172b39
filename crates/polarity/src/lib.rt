// A transistor's polarity: a PNP's voltages are turned over before the rows see them, and its currents after them.
#![tactic(auto)]

ghost use Rattle.std.specs.Prelude.{◌≡◌, map};
ghost use Rattle.volts.specs.Volts.{given_back, AllNear};
ghost use Rattle.outcome.specs.OfTerms.inner.Ready.{Askable};
ghost use Rattle.polarity.specs.Polarity.{turned, outcome_of};
ghost use Rattle.polarity.specs.inner.Turning.{kept_turned, Turnable};

use octave::Table;
pub use outcome::rows::Over;
use outcome::terms::{BRANCHES, ROLES, Ready};

// The largest kept voltage: what is kept of a voltage and of its opposite add up to it.
const SPAN: u32 = volts::SPAN as u32;

// The kept voltages of the roles, as they are or turned over.
fn turn_volts(pnp: bool, v: [u32; ROLES]) -> [u32; ROLES]
    requires { AllNear v }
    ensures { result ≡ map (kept_turned pnp) v }
{
    if !pnp {
        return v;
    }
    let mut over = v;
    for (k, x) in v.iter().enumerate() {
        over[k] = SPAN - *x;
    }
    over
}

// The ticks of the branches, as they are or turned over.
fn turn_ticks(pnp: bool, ticks: [i64; BRANCHES]) -> [i64; BRANCHES]
    requires { Turnable ticks }
    ensures { result ≡ map (turned pnp) ticks }
{
    if !pnp {
        return ticks;
    }
    let mut over = ticks;
    for (k, t) in ticks.iter().enumerate() {
        over[k] = 0 - *t;
    }
    over
}

// The outcome of a card made ready at the kept voltages of its roles.
pub fn work_out(t: &Table, r: Ready, v: &[u32; ROLES]) -> Result<[i64; BRANCHES], Over>
    requires { Askable t.now r v.now }
    ensures { result ≡ outcome_of r.card (map given_back v.now) }
{
    let c = r.card;
    let seen = turn_volts(c.pnp, *v);
    let ticks = outcome::work_out(t, r, &seen)?;
    Ok(turn_ticks(c.pnp, ticks))
}
