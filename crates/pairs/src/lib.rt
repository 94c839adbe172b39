// A list of pairs, each a node and a voltage for it: judged, kept at the nodes, written there, and who names one of the
// nodes.
#![tactic(auto)]

ghost use Rattle.std.specs.Prelude.{◌≡◌, false, length};
ghost use Rattle.given.specs.Pairs.{are_pairs, some_pair_off, shifts_of};
ghost use Rattle.totals.specs.Gives.{nodes_most};
ghost use Rattle.model.specs.Desk.{moved_to};
ghost use Rattle.pairs.specs.inner.Pairs.{KeepsPairs, NamesAny};

use refusal::Refusal;
use totals::NODES;

// The most numbers of a list: a node and its voltage for every node.
const NUMBERS: usize = 2 * NODES;

pub fn are_pairs(pairs: &[i64]) -> bool
    ensures { result ≡ are_pairs pairs.now }
{
    let n = pairs.len();
    if n < 2 {
        return false;
    }
    if NUMBERS < n {
        return false;
    }
    n % 2 == 0
}

// Keeps the voltage of each pair at its node, the last one of a node last: 13 where a pair is out of range.
pub fn keep_pairs(will: &mut [u32; NODES], pairs: &[i64]) -> Result<(), Refusal>
    ensures { KeepsPairs pairs.now will.old result will.new }
{
    let mut rest = pairs;
    while let [node, microvolts, more @ ..] = rest {
        let n = given::node_of(*node) as usize;
        if NODES <= n {
            return Err(Refusal::OutOfRange);
        }
        will[n] = volts::keep(*microvolts).ok_or(Refusal::OutOfRange)?;
        rest = more;
    }
    Ok(())
}

// Writes the voltage of each pair to a slice of 32, at its node, the last one of a node last.
pub fn put_pairs(volts: &mut [i64], pairs: &[i64])
    requires volts_len { length volts.old ≡ nodes_most }
    requires pairs_value { some_pair_off pairs.now ≡ false }
    ensures { volts.new ≡ moved_to volts.old (shifts_of pairs.now) }
{
    let mut rest = pairs;
    while let [node, v, more @ ..] = rest {
        let at = given::node_of(*node) as usize;
        volts[at] = *v;
        rest = more;
    }
}

// The places in the set of one of the nodes.
pub fn naming_any(naming: &[u64; NODES], pairs: &[i64]) -> u64
    requires { some_pair_off pairs.now ≡ false }
    ensures { NamesAny pairs.now naming.now result }
{
    let mut set: u64 = 0;
    let mut rest = pairs;
    while let [node, _, more @ ..] = rest {
        let named = given::node_of(*node) as usize;
        set |= naming[named];
        rest = more;
    }
    set
}
