// Totals judged as they would stand, and written.
#![tactic(auto)]

ghost use Rattle.std.specs.Prelude.{◌≡◌, Some, true, length, replicate, pos, ◌+ℤ◌, ◌-ℤ◌};
ghost use Rattle.totals.specs.Gives.{nodes_most};
ghost use Rattle.small.specs.OfSlices.Slices.{stood, StandsIn};
ghost use Rattle.small.specs.inner.Small.{Near, SmallNode, AllSmall};

use refusal::Refusal;
use totals::NODES;

// What `judging::stand` has, of small numbers.
fn stand_near(total: i64, coming: i64, going: i64) -> i64
    requires { SmallNode total coming going }
    ensures { result ≡ total +ℤ (coming -ℤ going) }
{
    total + (coming - going)
}

// Each of 32 totals with what comes in at its node and less what goes out there, where all are small.
fn stand_small(totals: &[i64], coming: &[i64; NODES], going: &[i64; NODES]) -> [i64; NODES]
    requires totals_len { length totals.now ≡ nodes_most }
    requires small { AllSmall totals.now coming.now going.now }
    ensures { Some result ≡ stood totals.now coming.now going.now }
{
    let mut next = [0i64; NODES];
    for k in 0..NODES {
        next[k] = stand_near(totals[k], coming[k], going[k]);
    }
    next
}

// The same of any numbers, judged node by node: none where one leaves the 64-bit range.
fn stand_each(totals: &[i64], coming: &[i64; NODES], going: &[i64; NODES]) -> Option<[i64; NODES]>
    requires { length totals.now ≡ nodes_most }
    ensures { result ≡ stood totals.now coming.now going.now }
{
    let mut next = [0i64; NODES];
    for k in 0..NODES {
        next[k] = judging::stand(totals[k], coming[k], going[k])?;
    }
    Some(next)
}

// Writes totals to a slice of 32.
pub fn put_totals(totals: &mut [i64], next: &[i64; NODES])
    requires totals_len { length totals.old ≡ nodes_most }
    requires next_len { length next.now ≡ nodes_most }
    ensures { totals.new ≡ next.now }
{
    for (k, total) in next.iter().enumerate() {
        totals[k] = *total;
    }
}

// Each of 32 totals with what comes in at its node and less what goes out there, in place: all are written, or none
// where one leaves the 64-bit range, which is 10. Where all numbers are small, as they nearly always are, none leaves
// it, and no node is judged by itself; that so little comes and goes is said by the caller, where it has few
// transistors.
pub fn stand_in(
    totals: &mut [i64],
    coming: &[i64; NODES],
    going: &[i64; NODES],
    few: bool,
) -> Result<(), Refusal>
    requires totals_len { length totals.old ≡ nodes_most }
    requires near { few ≡ true → Near coming.now going.now }
    ensures { StandsIn totals.old coming.now going.now
        result totals.new }
{
    if small::all_small(totals, coming, going, few) {
        let near = stand_small(totals, coming, going);
        put_totals(totals, &near);
        return Ok(());
    }
    let next = stand_each(totals, coming, going).ok_or(Refusal::OutOfReach)?;
    put_totals(totals, &next);
    Ok(())
}

// The same where nothing comes and nothing goes: each total stands as it is, and stays in its range, as every number
// does that can be read; of the reading the compiler leaves nothing.
pub fn stand_still(totals: &[i64]) -> Result<(), Refusal>
    requires { length totals.now ≡ nodes_most }
    ensures { StandsIn totals.now (replicate nodes_most (pos 0)) (replicate nodes_most (pos 0))
        result totals.now }
{
    for &_total in totals {}
    Ok(())
}
