// From a worked card and voltages in microvolts to a reply: 13, then 15 or 18.
ghost use Rattle.std.specs.Prelude.{◌≡◌, map};
ghost use Rattle.refusal.specs.Order.{verdict};
ghost use Rattle.volts.specs.Volts.{given_back, AllNear};
ghost use Rattle.card.specs.inner.Worked.{IsWorked};
ghost use Rattle.polarity.specs.Polarity.{outcome_of};
ghost use Rattle.branch.specs.Currents.{at_volts, at_outcome};
ghost use Rattle.branch.specs.inner.Replied.{all_kept};

use crate::{BRANCHES, ROLES};
use card::WorkedCard;
use ends::looked_at;
use polarity::{Over, work_out};
use ready::prepare;
use refusal::Refusal;

// The voltages of the roles as they are kept, where every one is within its range.
fn keep_all(volts: [i64; ROLES]) -> Option<[u32; ROLES]>
    ensures { result ≡ all_kept volts }
{
    let mut kept = [0u32; ROLES];
    for (k, v) in volts.iter().enumerate() {
        kept[k] = volts::keep(*v)?;
    }
    Some(kept)
}

// The currents of a card at kept voltages. What overloads is told of the number 0, which no transistor has.
fn answer(c: WorkedCard, v: [u32; ROLES]) -> Result<[i64; BRANCHES], Refusal>
    requires { (IsWorked c) × AllNear v }
    ensures { verdict result ≡ at_outcome (outcome_of c (map given_back v)) }
{
    let t = octave::table();
    match work_out(&t, prepare(c), &v) {
        Ok(ticks) => Ok(ticks),
        Err(Over::Ticks(k)) => Err(Refusal::Overload(0, k)),
        Err(Over::Injection(k)) => Err(Refusal::Injection(0, k)),
    }
}

pub(crate) fn card_currents(c: WorkedCard, volts: &[i64; ROLES]) -> Result<[i64; BRANCHES], Refusal>
    requires { IsWorked c }
    ensures { verdict result ≡ at_volts c volts.now }
{
    let kept = keep_all(looked_at(c.wide, *volts)).ok_or(Refusal::OutOfRange)?;
    answer(c, kept)
}
