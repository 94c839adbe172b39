// The floats of a record: the number that a word's bits stand for, and a number cut to 31 binary digits.
#![tactic(auto)]

ghost use Rattle.std.specs.Prelude.{◌≡◌, ◌<◌, ◌^◌, false, negsuc};
ghost use Rattle.std.specs.Float.{fin};
ghost use Rattle.std.specs.Float.Ieee.Scale.{finite};
ghost use Rattle.float.specs.Word.{real_of};
ghost use Rattle.float.specs.Split.{split_of, no_split};

// What a power is taken from, so that it is kept without a sign.
pub const BIAS: u16 = 8172;

// The same for a power that is counted from 2^-1105, below every finite number's, and for the field of an exponent.
const LOWEST: u64 = BIAS as u64 + 1105;

const FIELD: u64 = LOWEST - 52;

// The bit of the sign among a word's, the first bit of an exponent, and the exponent of what is no finite number.
const SIGN: u64 = 1 << 63;

const UNIT: u64 = 1 << 52;

const NO_NUMBER: u64 = 2047;

// The binary digits that a split keeps none of.
const DROPPED: u64 = 1 << 22;

// The number a * 2^(BIAS - down), where 2^30 <= a < 2^31 or a is 0.
#[derive(Clone, Copy, Default)]
pub struct Split {
    pub a: u32,
    pub down: u16,
}

// The number that the bits of a word stand for, where it is a finite one. An exponent's field of all ones marks an
// infinity or a NaN: it is judged on the bits, as no comparison tells a NaN.
pub fn read(w: u64) -> Option<f64>
    ensures { result ≡ real_of w }
{
    if w % SIGN / UNIT == NO_NUMBER {
        None
    } else {
        Some(f64::from_bits(w))
    }
}

// Whether x is neither infinite nor a NaN.
pub fn is_finite(x: f64) -> bool
    ensures { result ≡ finite x }
{
    x.is_finite()
}

// What stands where there is no value.
pub fn no_split() -> Split
    ensures { result ≡ no_split }
{
    Split::default()
}

// The size of x, its leading 31 digits kept.
pub fn cut(x: f64) -> Split
    ensures { result ≡ split_of x }
{
    if is_finite(x) {
        let bits = x.to_bits();
        let field = bits % SIGN / UNIT;
        let digits = bits % UNIT;
        if field == 0 {
            return cut_small(digits);
        }
        return Split {
            a: ((UNIT + digits) / DROPPED) as u32,
            down: (FIELD - field) as u16,
        };
    }
    Split { a: 0, down: BIAS }
}

// n units of 2^-1074, n of at most 52 digits: a zero or a subnormal number.
fn cut_small(n: u64) -> Split
    requires { n < 2 ^ 52 }
    ensures { result ≡ split_of (fin false n (negsuc 1073)) }
{
    if n == 0 {
        return Split { a: 0, down: BIAS };
    }
    let size = u64::from(64 - n.leading_zeros());
    Split {
        a: ((n << (53 - size)) / DROPPED) as u32,
        down: (LOWEST - size) as u16,
    }
}
