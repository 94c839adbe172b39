// The rows of a transistor's branches: what comes of them, and each row's ticks of 2^-50 ampere.
#![tactic(auto)]

ghost use Rattle.std.specs.Prelude.{◌≡◌, ◌≤◌};
ghost use Rattle.rows.specs.Ticks.{root_for};
ghost use Rattle.rows.specs.Outcome.{tick_limit, ratio_limit};
ghost use Rattle.rows.specs.inner.FromTerms.{Fine, divided_of, all_ticks};

pub use terms;
use terms::{BRANCHES, PART_PLACES, TICKS_MOST, Terms};

// The unit of ratios, 2^20; Q's shift; and the first size that no row's ticks have.
const UNIT: u64 = 1 << PART_PLACES;

const SHIFT: u64 = PART_PLACES + 1;

const TICKS_OVER: u64 = TICKS_MOST + 1;

// How many of the rows are junctions'; those of the leads follow.
const JUNCTIONS: usize = 8;

// Below this floor, a ratio of 1/64, three terms of the root's series are the root or one less.
const NEAR: u64 = UNIT / 64;

// Which row overloads first, by its number from 1, and whether by a T or by a ratio.
#[derive(Clone, Copy)]
pub enum Over {
    Ticks(u32),
    Injection(u32),
}

// One more than 2^20 + n/2 - n^2/2^23 for a small floor n: most often one above its root, else the root, and never
// below it, so that `root_near` need not search. Nothing is promised of it.
fn near(ratio: u64) -> u32 {
    let n = ratio % NEAR;
    (UNIT + 1 + (n * (4 * UNIT) - n * n) / (8 * UNIT)) as u32
}

// The root for a ratio's floor; 2^20 for the floor 0.
fn root_for(ratio: u64) -> u64
    requires { ratio ≤ ratio_limit }
    ensures { result ≡ root_for ratio }
{
    if ratio == 0 {
        return UNIT;
    }
    let x = (UNIT + ratio) * UNIT;
    if ratio < NEAR {
        return roots::root_near(x, near(ratio));
    }
    roots::root(x)
}

// Q of a row's difference over the two roots.
fn over_roots(plus: u64, minus: u64, left: u64, right: u64) -> i64
    requires { (plus ≤ tick_limit) × ((minus ≤ tick_limit) × ((left ≤ ratio_limit) × (right ≤ ratio_limit))) }
    ensures { result ≡ divided_of plus minus left right }
{
    if plus == minus {
        return 0;
    }
    let divisor = root_for(left) + root_for(right);
    quotients::quotient(plus, minus, SHIFT, divisor, TICKS_OVER)
}

// The same. Most rows have two floors of 0: there the divisor is 2^21, Q changes nothing and no root is worked.
// It is called in two places so that the compiler leaves it apart from the loop over the rows, which it then unrolls.
fn divided(plus: u64, minus: u64, left: u64, right: u64) -> i64
    requires { (plus ≤ tick_limit) × ((minus ≤ tick_limit) × ((left ≤ ratio_limit) × (right ≤ ratio_limit))) }
    ensures { result ≡ divided_of plus minus left right }
{
    if 0 < left {
        return over_roots(plus, minus, left, right);
    }
    if 0 < right {
        return over_roots(plus, minus, left, right);
    }
    whole::difference(plus, minus)
}

// Each row's ticks. Two loops, of the junctions and of the leads, are each short enough to be unrolled; one over all
// rows is not.
pub fn all_divided(x: Terms) -> [i64; BRANCHES]
    requires { Fine x }
    ensures { result ≡ all_ticks x }
{
    let mut ticks = [0i64; BRANCHES];
    for k in 0..JUNCTIONS {
        let t = divided(x.plus[k], x.minus[k], x.left[k], x.right[k]);
        ticks[k] = t;
    }
    for k in JUNCTIONS..BRANCHES {
        let t = divided(x.plus[k], x.minus[k], x.left[k], x.right[k]);
        ticks[k] = t;
    }
    ticks
}
