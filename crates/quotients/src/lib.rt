// Numbers times a power of two and quotients after a shift, each held at the first number that is too much.
#![tactic(auto)]

ghost use Rattle.std.specs.Prelude.{◌≡◌, ◌*◌, ◌^◌, ◌≤◌};
ghost use Rattle.std.proofs.Math.IntN.{sub_ℕ};
ghost use Rattle.whole.specs.Signed.{signed_span};
ghost use Rattle.whole.specs.Scale.{floor_scale, held_at};
ghost use Rattle.quotients.specs.Quotient.{shifted_quotient, quotient_of, held_size, Dividing, Divisible};

pub use whole;

// Binary places of a word.
const PLACES: u64 = 64;

// A number below DIVISOR_MOST = 2^43 has room for the largest shift, 21, within 64 bits.
const DIVISOR_MOST: u64 = 8796093022208;

// t, held at `over`.
fn hold(over: u64, t: u64) -> u64
    ensures { result ≡ held_at over t }
{
    t.min(over)
}

// x * 2^s, held at `over`.
fn scale_up(x: u64, s: u64, over: u64) -> u64
    ensures { result ≡ held_at over (x * 2 ^ s) }
{
    if x == 0 {
        return 0;
    }
    if s < PLACES && x <= u64::MAX >> s {
        return hold(over, x << s);
    }
    over
}

// x * 2^(up - down), rounded downward and held at `over`, the first number that is too much.
pub fn floor_scale(x: u64, up: u64, down: u64, over: u64) -> u64
    ensures { result ≡ held_at over (floor_scale x (sub_ℕ up down)) }
{
    if down <= up {
        return scale_up(x, up - down, over);
    }
    let s = down - up;
    if s < PLACES { hold(over, x >> s) } else { 0 }
}

// n * 2^s / d, rounded downward and held at `over`.
pub fn shifted_quotient(n: u64, s: u64, d: u64, over: u64) -> u64
    requires { Dividing s d }
    ensures { result ≡ held_at over (shifted_quotient n s d) }
{
    if n < DIVISOR_MOST {
        return hold(over, (n << s) / d);
    }
    let whole = n / d;
    if over >> s < whole {
        return over;
    }
    let base = whole << s;
    let rest = (n % d << s) / d;
    base + rest.min(over - base)
}

// (a - b) * 2^s / d, rounded toward zero, its size held at `over`.
pub fn quotient(a: u64, b: u64, s: u64, d: u64, over: u64) -> i64
    requires { Divisible a b s d over }
    ensures { result ≡ held_size over (quotient_of (sub_ℕ a b) s d) }
{
    if a < b {
        -(shifted_quotient(b - a, s, d, over) as i64)
    } else {
        shifted_quotient(a - b, s, d, over) as i64
    }
}
