// Whether the numbers of all nodes are small, told at once.
#![tactic(auto)]

ghost use Rattle.std.specs.Prelude.{◌≡◌, ◌*◌, ◌<◌, true, length};
ghost use Rattle.slices.specs.OfTotals.Gives.{nodes_most};
ghost use Rattle.small.specs.inner.Small.{small_most, Small, EachSmall, Near, AllSmall};

pub use slices;
use slices::totals::NODES;

// 2^61. Numbers from -2^61 up and below 2^61 are small: three of them are within 64 bits together.
const SMALL: u64 = 2305843009213693952;

// The first number that no small one is raised to by that.
const LARGE: u64 = 2 * SMALL;

// A number raised by SMALL, around the end of 64 bits: below LARGE only where it is small. Both ways are one sum to the
// compiler, which has no branch there.
fn around(v: i64) -> u64
    ensures { result < 2 * small_most → Small v }
{
    if v < 0 {
        std::num::wrapping_sub_u64(SMALL - 1, (-1 - v) as u64)
    } else {
        SMALL + v as u64
    }
}

// The binary digits of the numbers of 32 nodes, each raised so: no number is judged by itself, so that the machine may
// take two at a time. Where together they are no less than LARGE, nothing is said.
fn digits_of(numbers: &[i64]) -> u64
    requires { length numbers.now ≡ nodes_most }
    ensures { result < 2 * small_most → EachSmall numbers.now }
{
    let mut digits: u64 = 0;
    for &v in numbers {
        digits |= around(v);
    }
    digits
}

// The same of what comes in and of what goes out.
fn digits_of_both(coming: &[i64; NODES], going: &[i64; NODES]) -> u64
    ensures { result < 2 * small_most → Near coming.now going.now }
{
    let mut digits: u64 = 0;
    for k in 0..NODES {
        digits = digits | around(coming[k]) | around(going[k]);
    }
    digits
}

// Whether all totals are small, and what comes in and what goes out; of few transistors the latter are, and only the
// totals are looked at. Where it tells that they are not, nothing is said.
pub fn all_small(totals: &[i64], coming: &[i64; NODES], going: &[i64; NODES], few: bool) -> bool
    requires totals_len { length totals.now ≡ nodes_most }
    requires near { few ≡ true → Near coming.now going.now }
    ensures { result ≡ true → AllSmall totals.now coming.now going.now }
{
    let own = digits_of(totals);
    if few {
        return own < LARGE;
    }
    own | digits_of_both(coming, going) < LARGE
}
