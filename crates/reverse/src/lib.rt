// The sum of two exponentials, and a difference of T's over it: what the reverse non-ideal current has and no other
// branch.
#![tactic(auto)]

ghost use Rattle.std.specs.Prelude.{◌≡◌, ◌≤◌};
ghost use Rattle.scaling.specs.inner.Shifts.{exp_at, UpTo, Sized};
ghost use Rattle.reverse.specs.Sum.{sum_limit, sum_parts};
ghost use Rattle.reverse.specs.inner.Pairs.{pair_of};

pub use scaling;
pub use scaling::octave;
use scaling::octave::{BIAS, Exponential};
use scaling::{PART_PLACES, TICKS_MOST, quotients};

// The most that the sum may be.
const SUM_MOST: u64 = 8796093022208;

const SUM_OVER: u64 = SUM_MOST + 1;

// Above this power an exponential is by itself more than that.
const TOP: u64 = BIAS + 23;

// Digits are raised by 30 places, so that what a lower exponential adds is not lost before all is shifted down.
const RAISED: u64 = 1073741824;

const DOWN: u64 = BIAS + 40;

// The first number of ticks that is too much.
const TICKS_OVER: u64 = TICKS_MOST + 1;

// What a branch adds and what it takes away, one of them 0; or more than it may, where it overloads.
#[derive(Clone, Copy)]
pub struct Pair {
    pub plus: u64,
    pub minus: u64,
}

// 2^20 times the sum of two exponentials, the one of the higher power first. Above its limit it need not be right, but
// only above it.
fn summed(high: Exponential, low: Exponential) -> u64
    requires { Sized high × Sized low × (low.n ≤ high.n) }
    ensures { UpTo sum_limit result (sum_parts (exp_at high) (exp_at low)) }
{
    if TOP < high.n {
        return SUM_OVER;
    }
    let x = high.m * RAISED + whole::shift_down(low.m * RAISED, high.n - low.n);
    whole::shift_down(x, DOWN - high.n)
}

// The same in either order.
pub fn sum_of(g: Exponential, h: Exponential) -> u64
    requires { Sized g × Sized h }
    ensures { UpTo sum_limit result (sum_parts (exp_at g) (exp_at h)) }
{
    if g.n < h.n {
        summed(h, g)
    } else {
        summed(g, h)
    }
}

// A difference of T's times 2^20 over the sum, toward zero: 15 for a T, for a sum of 0 or above its limit, and for a
// result above a T's limit.
#[tactic(auto, unfolding(crate::specs::inner::Pairs::pair_of))]
pub fn over_sum(plus: u64, minus: u64, sum: u64) -> Pair
    ensures { result ≡ pair_of plus minus sum }
{
    if TICKS_MOST < plus || TICKS_MOST < minus || sum == 0 || SUM_MOST < sum {
        return Pair {
            plus: TICKS_OVER,
            minus: 0,
        };
    }
    let q = quotients::shifted_quotient(plus.abs_diff(minus), PART_PLACES, sum, TICKS_OVER);
    if plus < minus {
        Pair { plus: 0, minus: q }
    } else {
        Pair { plus: q, minus: 0 }
    }
}
