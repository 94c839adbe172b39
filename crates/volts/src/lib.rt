// Voltages as they are kept: in microvolts, raised by the largest of them, so that none is negative.
#![tactic(auto)]

ghost use Rattle.std.specs.Prelude.{◌≡◌};
ghost use Rattle.volts.specs.Volts.{keeping, given_back, across_of, Near};

// The largest voltage of a node, of either sign.
pub const VOLTS_MOST: u64 = 2500000;

// The same, and the least, with a sign.
const MOST: i64 = 2500000;

const LEAST: i64 = -2500000;

// The largest kept voltage; also the largest voltage from one node to another, of either sign.
pub const SPAN: u64 = 2 * VOLTS_MOST;

// No volts, kept.
pub const ZERO: u32 = VOLTS_MOST as u32;

// A voltage as it is kept, where it is within the range.
pub fn keep(microvolts: i64) -> Option<u32>
    ensures { result ≡ keeping microvolts }
{
    if MOST < microvolts {
        return None;
    }
    if microvolts < LEAST {
        return None;
    }
    Some((microvolts + MOST) as u32)
}

// The voltage that is kept as x.
pub fn give_back(x: u32) -> i64
    ensures { result ≡ given_back x }
{
    x as i64 - MOST
}

// The voltage from one node to another, from what is kept of theirs, raised by SPAN.
pub fn across(a: u32, b: u32) -> u64
    requires { Near b }
    ensures { result ≡ across_of a b }
{
    a as u64 + SPAN - (b as u64)
}
