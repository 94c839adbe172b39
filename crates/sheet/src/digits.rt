// Numbers in digits, added to a text.
ghost use Rattle.std.specs.Prelude.{◌≡◌, ◌<◌, ◌≤◌, ◌∷◌};
ghost use Rattle.spelling.specs.Bytes.{space};
ghost use Rattle.sheet.specs.Text.{Adds};
ghost use Rattle.sheet.specs.Digits.{glyph_of, digits_of, hex_digits, plain_digits, decimal_of, sign_of, signed_digits};
ghost use Rattle.sheet.specs.Digits.{ampere_digits};

use crate::Text;

// How many decimal digits a number of 64 bits has at most.
const MOST_DIGITS: usize = 20;

// How many picoamperes an ampere has, and with how many decimals it is printed.
const AMPERE_PICOS: u64 = 1000000000000;

const DECIMALS: usize = 12;

// The digit of a value below sixteen, in lower case.
fn glyph(d: u64) -> u8
    requires { d < 16 }
    ensures { result ≡ glyph_of d }
{
    if d < 10 {
        b'0' + d as u8
    } else {
        b'a' - 10 + d as u8
    }
}

impl Text {
    // The k lowest digits of x, zeros in front too.
    fn spell(&mut self, x: u64, base: u64, k: usize)
        requires { (0 < base) × (base ≤ 16) }
        ensures { Adds self.old (digits_of base k x) self.new }
    {
        if k == 0 {
            return;
        }
        self.spell(x / base, base, k - 1);
        self.push(glyph(x % base));
    }

    pub(crate) fn hex(&mut self, x: u64, k: usize)
        ensures { Adds self.old (hex_digits k x) self.new }
    {
        self.spell(x, 16, k);
    }

    // The decimal digits of x, which has at most k of them.
    fn plain(&mut self, x: u64, k: usize)
        ensures { Adds self.old (plain_digits k x) self.new }
    {
        if k == 0 {
            return;
        }
        if x < 10 {
            self.push(glyph(x));
            return;
        }
        self.plain(x / 10, k - 1);
        self.push(glyph(x % 10));
    }

    pub(crate) fn decimal(&mut self, x: u64)
        ensures { Adds self.old (decimal_of x) self.new }
    {
        self.plain(x, MOST_DIGITS);
    }

    // A number, with a space before it.
    pub(crate) fn spaced(&mut self, n: u64)
        ensures { Adds self.old (space ∷ decimal_of n) self.new }
    {
        self.push(b' ');
        self.decimal(n);
    }

    fn sign(&mut self, below: bool)
        ensures { Adds self.old (sign_of below) self.new }
    {
        if below {
            self.push(b'-');
        }
    }

    pub(crate) fn signed(&mut self, v: i64)
        ensures { Adds self.old (signed_digits v) self.new }
    {
        self.sign(v < 0);
        self.decimal(v.unsigned_abs());
    }

    pub(crate) fn amperes(&mut self, ticks: i64)
        ensures { Adds self.old (ampere_digits ticks) self.new }
    {
        let s = current::open(ticks);
        let p = current::picoamperes(s);
        self.sign(current::shows_minus(s.below, p));
        self.decimal(p / AMPERE_PICOS);
        self.push(b'.');
        self.spell(p, 10, DECIMALS);
    }
}
