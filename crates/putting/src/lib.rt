// The two lent slices cleared.
#![tactic(auto)]

ghost use Rattle.slices.specs.Slices.{Clears};

use refusal::Refusal;
use totals::NODES;

// Sets every voltage and every total to 0: 13 where a slice has not 32 numbers.
pub fn clear(volts: &mut [i64], totals: &mut [i64]) -> Result<(), Refusal>
    ensures { Clears volts.old totals.old result volts.new totals.new }
{
    if !keeping::right_lengths(volts, totals) {
        return Err(Refusal::OutOfRange);
    }
    let none = [0i64; NODES];
    standing::put_totals(volts, &none);
    standing::put_totals(totals, &none);
    Ok(())
}
