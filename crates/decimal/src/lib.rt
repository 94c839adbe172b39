// The word of a number in decimal digits: one exact multiplication or division, since both its operands are exact.
#![tactic(auto)]

ghost use Rattle.std.specs.Prelude.{◌≡◌, ◌<◌};
ghost use Rattle.decimal.specs.Decimal.{digits_end, powers_end, rounded_of, size_bits, word_of, powers_of_ten, times_power};

// What the sign adds to a word.
pub const SIGN: u64 = 0x8000000000000000;

// A number in decimal digits: whether it is below zero, its digits, and its power of ten with 22 added.
#[derive(Clone, Copy)]
pub struct Decimal {
    pub minus: bool,
    pub digits: u64,
    pub power: u64,
}

// Where digits end, the power 0 as it is held, and where held powers end.
pub const DIGITS_END: u64 = 1000000000000000;

pub const NO_POWER: u64 = 22;

pub const POWERS_END: u64 = 45;

// 10^0 to 10^22, each an f64 without rounding: had once for many numbers, and lent.
#[derive(Drop)]
pub struct PowersOfTen {
    pub powers: [f64; 23],
    pub ghost value: { powers ≡ powers_of_ten },
}

const POWERS: [f64; 23] = [
    1e0, 1e1, 1e2, 1e3, 1e4, 1e5, 1e6, 1e7, 1e8, 1e9, 1e10, 1e11, 1e12, 1e13, 1e14, 1e15, 1e16,
    1e17, 1e18, 1e19, 1e20, 1e21, 1e22,
];

pub fn tens() -> PowersOfTen
    ensures { result.powers ≡ powers_of_ten }
{
    PowersOfTen { powers: POWERS }
}

impl PowersOfTen {
    // x with the power q - 22: one division or one multiplication.
    pub fn times(&self, x: f64, q: u64) -> f64
        requires q_lt_powers_end { q < powers_end }
        ensures { result ≡ times_power x q }
    {
        if q < NO_POWER {
            x / self.powers[(NO_POWER - q) as usize]
        } else {
            x * self.powers[(q - NO_POWER) as usize]
        }
    }
}

fn rounded(tens: &PowersOfTen, d: u64, q: u64) -> f64
    requires d_lt_digits_end { d < digits_end }
    requires q_lt_powers_end { q < powers_end }
    ensures { result ≡ rounded_of d q }
{
    tens.times(d as f64, q)
}

// The word of d with the power q - 22.
pub fn size_bits(tens: &PowersOfTen, d: u64, q: u64) -> u64
    requires d_lt_digits_end { d < digits_end }
    requires q_lt_powers_end { q < powers_end }
    ensures { result ≡ size_bits d q }
{
    rounded(tens, d, q).to_bits()
}

// The word of a number, with its sign.
pub fn word(tens: &PowersOfTen, x: Decimal) -> u64
    requires digits_lt_digits_end { x.digits < digits_end }
    requires power_lt_powers_end { x.power < powers_end }
    ensures { result ≡ word_of x.minus x.digits x.power }
{
    let d = x.digits;
    let size = size_bits(tens, d, x.power);
    if x.minus && 0 < d { SIGN + size } else { size }
}
