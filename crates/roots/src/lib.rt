// The whole square root.
#![tactic(auto)]

ghost use Rattle.std.specs.Prelude.{◌≡◌, ◌^◌, ◌<◌};
ghost use Rattle.roots.specs.Root.{root_of};

// The first number above 32 bits.
const HALF_SPAN: u64 = 4294967296;

// The greatest r with r * r <= x, bit by bit from the top.
fn bitwise(x: u64) -> u64
    ensures { result ≡ root_of x }
{
    let mut t: u64 = 0;
    for k in (0u32..32).rev() {
        let u = t + (1u64 << k);
        if u * u <= x {
            t = u;
        }
    }
    t
}

// 1 on the curve, and the first number beyond it.
const CURVE_ONE: u64 = 65536;

const CURVE_SPAN: u64 = 4 * CURVE_ONE;

// 2^16 times the root of t / 2^16, within one part in 190, for t from 2^16 to 2^18.
fn curve(t: u64) -> u64
    ensures { result < 2 ^ 18 }
{
    let u = t % CURVE_SPAN;
    (33984 + u * (34473 - u * 2591 / CURVE_ONE) / CURVE_ONE) % CURVE_SPAN
}

// The mean of g + 1 and x / (g + 1): Newton's next number after g + 1.
fn nearer(x: u64, g: u32) -> u32 {
    let d = u64::from(g) + 1;
    ((d + x / d % HALF_SPAN) / 2) as u32
}

// A number near the root of x, most often the root, else one more. Nothing is promised of it: `root_near` judges it.
fn guess(x: u64) -> u32 {
    let h = u64::from(x.leading_zeros()) / 2 % 32;
    let t = (x << 2 * h) >> 46;
    let g = ((curve(t) << 15) >> h) % HALF_SPAN;
    nearer(x, nearer(x, g as u32))
}

// The greatest r with r * r <= x, from a number near it. Nothing is asked of that number: its square judges it.
pub fn root_near(x: u64, near: u32) -> u64
    ensures { result ≡ root_of x }
{
    let r = u64::from(near);
    let q = r * r;
    if q <= x && x - q <= 2 * r {
        return r;
    }
    if x < q && q - x < 2 * r {
        return r - 1;
    }
    bitwise(x)
}

// The greatest r with r * r <= x.
pub fn root(x: u64) -> u64
    ensures { result ≡ root_of x }
{
    root_near(x, guess(x))
}
