// The lent slices tested, and their voltages kept.
#![tactic(auto)]

ghost use Rattle.std.specs.Prelude.{◌≡◌, not, length};
ghost use Rattle.volts.specs.Volts.{off_volts};
ghost use Rattle.slices.specs.OfTotals.Gives.{nodes_most};
ghost use Rattle.slices.specs.OfGiven.Lists.{any_of};
ghost use Rattle.slices.specs.Slices.{off_slices, right_lengths, kept_volts, kept_slices};

use slices::totals::NODES;

// Whether every voltage of 32 is in range.
fn in_range(volts: &[i64]) -> bool
    requires { length volts.now ≡ nodes_most }
    ensures { result ≡ not (any_of off_volts volts.now) }
{
    for &v in volts {
        let Some(_) = volts::keep(v) else {
            return false;
        };
    }
    true
}

// The voltages of 32 as they are kept, where every one is in range.
fn keep_slice(volts: &[i64]) -> Option<[u32; NODES]>
    requires { length volts.now ≡ nodes_most }
    ensures { result ≡ kept_volts volts.now }
{
    let mut kept = [0; NODES];
    for (k, v) in volts.iter().enumerate() {
        kept[k] = volts::keep(*v)?;
    }
    Some(kept)
}

// Whether both slices have 32 numbers.
pub fn right_lengths(volts: &[i64], totals: &[i64]) -> bool
    ensures { result ≡ right_lengths volts.now totals.now }
{
    volts.len() == NODES && totals.len() == NODES
}

// Good slices have 32 numbers each, and every voltage in its range.
pub fn good_slices(volts: &[i64], totals: &[i64]) -> bool
    ensures { result ≡ not (off_slices volts.now totals.now) }
{
    right_lengths(volts, totals) && in_range(volts)
}

// The voltages as they are kept, where the slices are good.
pub fn keep_slices(volts: &[i64], totals: &[i64]) -> Option<[u32; NODES]>
    ensures { result ≡ kept_slices volts.now totals.now }
{
    if !right_lengths(volts, totals) {
        return None;
    }
    keep_slice(volts)
}
