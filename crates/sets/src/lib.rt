// Sets of places, one bit each: kept by node, and gone through. What stands at a place is read and written by the
// functions of `stretches`, which are passed on.
#![tactic(auto)]

ghost use Rattle.std.specs.Prelude.{◌≡◌, ◌≤◌, ◌<◌};
ghost use Rattle.std.specs.Int.Count.{count_trailing_zeros};
ghost use Rattle.stretches.specs.OfPlaces.Counts.{transistors_most};
ghost use Rattle.stretches.specs.OfPlaces.Sets.{size_of, with_place, without_place};
ghost use Rattle.stretches.specs.OfPlaces.Naming.{joined, parted};
ghost use Rattle.stretches.specs.OfPlaces.inner.Parts.{NextIn, Entering};

use stretches::places::TRANSISTORS;
use stretches::totals::NODES;
pub use stretches::{currents_at, nodes_at, put_currents, put_name, put_nodes};
use terms::ROLES;

// The set with the place i in it, and without it.
fn with(set: u64, i: usize) -> u64
    requires { i < transistors_most }
    ensures { result ≡ with_place set i }
{
    set | (1u64 << (i as u64))
}

fn without(set: u64, i: usize) -> u64
    requires { i < transistors_most }
    ensures { result ≡ without_place set i }
{
    let one = 1u64 << (i as u64);
    (set | one) ^ one
}

// Whoever comes to place i joins the sets of its nodes.
pub fn join(naming: &mut [u64; NODES], i: usize, on: &[u8; ROLES])
    requires { Entering naming.old i on.now }
    ensures { naming.new ≡ joined naming.old i on.now }
{
    for k in 0..ROLES {
        let n = on[k] as usize;
        naming[n] = with(naming[n], i);
    }
}

// Whoever leaves it leaves them.
pub fn leave(naming: &mut [u64; NODES], i: usize, on: &[u8; ROLES])
    requires { Entering naming.old i on.now }
    ensures { naming.new ≡ parted naming.old i on.now }
{
    for k in 0..ROLES {
        let m = on[k] as usize;
        naming[m] = without(naming[m], i);
    }
}

// How many places are in the set.
pub fn count(set: u64) -> u32
    ensures { result ≡ size_of set }
{
    u64::count_ones(set)
}

// How many zeros stand below the lowest digit that is set.
fn zeros_below(rest: u64) -> usize
    ensures { (result ≡ count_trailing_zeros 64 rest) × (result ≤ 64) }
{
    u64::trailing_zeros(rest) as usize
}

// The first place of the set at or after `from`.
pub fn next_in(set: u64, from: usize) -> usize
    ensures { NextIn set from result }
{
    if TRANSISTORS <= from {
        return TRANSISTORS;
    }
    let rest = set >> (from as u64);
    if rest == 0 {
        return TRANSISTORS;
    }
    from + zeros_below(rest)
}
