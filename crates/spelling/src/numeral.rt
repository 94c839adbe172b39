// A decimal numeral of any length.
ghost use Rattle.std.specs.Prelude.{◌≡◌, ◌+◌, ◌*◌, ◌≤◌, min};
ghost use Rattle.spelling.specs.Number.{first_past, within_ends, digit_of, all_digits, decimal_value};
ghost use Rattle.spelling.specs.Number.{nearest, parsed_with};

// The first size that no signed number of 64 bits above zero has.
const BEYOND: u64 = 9223372036854775808;

// The first size that no signed number of 64 bits has.
const PAST: u64 = 9223372036854775809;

fn digit(b: u8) -> u64
    ensures { (result ≡ digit_of b) × (result ≤ 9) }
{
    if b.is_ascii_digit() {
        u64::from(b - b'0')
    } else {
        0
    }
}

fn all_digits(s: &[u8]) -> bool
    ensures { result ≡ all_digits s.now }
{
    s.iter().all(|b| b.is_ascii_digit())
}

// x with a digit after it, held at the first past both ends.
fn longer(x: u64, d: u64) -> u64
    requires { d ≤ 9 }
    ensures { result ≡ min (10 * x + d) first_past }
{
    if PAST / 10 < x {
        return PAST;
    }
    (10 * x + d).min(PAST)
}

// The value of the digits, held there.
fn value(s: &[u8]) -> u64
    ensures { result ≡ min (decimal_value s.now) first_past }
{
    let mut x = 0;
    for b in s {
        x = longer(x, digit(*b));
    }
    x
}

// The number of that size and sign, or the end nearest to it; the first beyond is there only below zero.
fn held(x: u64, below: bool) -> i64
    requires { x ≤ first_past }
    ensures { result ≡ nearest below x }
{
    let size = i128::from(x);
    let value = if below { -size } else { size };
    value.clamp(i128::from(i64::MIN), i128::from(i64::MAX)) as i64
}

// The number of one digit or more, with that sign.
pub(crate) fn read(s: &[u8], below: bool) -> Option<i64>
    ensures { result ≡ parsed_with below s.now }
{
    if s.is_empty() {
        return None;
    }
    if all_digits(s) {
        Some(held(value(s), below))
    } else {
        None
    }
}

// Whether digits of that sign spell a number of 64 bits.
pub(crate) fn is_within(s: &[u8], below: bool) -> bool
    ensures { result ≡ within_ends below (decimal_value s.now) }
{
    let x = value(s);
    if below { x <= BEYOND } else { x < BEYOND }
}
