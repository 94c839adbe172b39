// A current as it is shown: its size, whether it is below zero, and its picoamperes.
#![tactic(auto)]

ghost use Rattle.std.specs.Prelude.{◌≡◌, ◌&&◌, ltb};
ghost use Rattle.current.specs.Current.{opened_of, pico_of};

// How many ticks an ampere has.
const AMPERE_TICKS: u64 = 1125899906842624;

// Four decimals of an ampere.
const FOUR: u64 = 10000;

// A signed number: whether it is below zero, and its size.
#[derive(Clone, Copy)]
pub struct Opened {
    pub below: bool,
    pub size: u64,
}

pub fn open(v: i64) -> Opened
    ensures { result ≡ opened_of v }
{
    Opened {
        below: v < 0,
        size: v.unsigned_abs(),
    }
}

// Ticks in whole picoamperes, cut toward zero whatever the sign: four decimals of an ampere at a time.
pub fn picoamperes(s: Opened) -> u64
    ensures { result ≡ pico_of s.size }
{
    let t = s.size;
    let a = t % AMPERE_TICKS * FOUR;
    let b = a % AMPERE_TICKS * FOUR;
    let c = b % AMPERE_TICKS * FOUR;
    let high = t / AMPERE_TICKS * FOUR + a / AMPERE_TICKS;
    let low = b / AMPERE_TICKS * FOUR + c / AMPERE_TICKS;
    high * FOUR * FOUR + low
}

// Whether a current of p picoamperes is shown with a minus sign.
pub fn shows_minus(below: bool, p: u64) -> bool
    ensures { result ≡ (below && ltb 0 p) }
{
    below && 0 < p
}
