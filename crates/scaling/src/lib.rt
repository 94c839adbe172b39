// A worked value times the exponential of a junction's voltage, in ticks or in parts of a ratio's unit. Above its limit
// a number need not be right, but only above it.
#![tactic(auto)]

ghost use Rattle.std.specs.Prelude.{◌≡◌, map, get_or, pos, ◌-ℤ◌};
ghost use Rattle.octave.specs.OfVolts.Volts.{given_back};
ghost use Rattle.scaling.specs.inner.Shifts.{alone_of, through_of, Drop, IsExp, Scalable, Junction, scaled_of};

use float::Split;
pub use octave;
pub use octave::quotients;
use octave::{Exponential, Reciprocal, Table, volts, whole};

// E1, B1, B2, C1, C2, C4, S, E, B, C, C3.
pub const ROLES: usize = 11;

// The most that a T may be.
pub const TICKS_MOST: u64 = 9007199254740992;

// Binary places of a tick, and of the unit in which ratios count.
const TICK_PLACES: u64 = 50;

pub const PART_PLACES: u64 = 20;

// The first number that is too much for a T by itself.
const TICKS_OVER: u64 = TICKS_MOST + 1;

// By how much more a ratio is shifted down than ticks are: it counts parts of 2^-20, they 2^-50.
pub const PARTS: u64 = TICK_PLACES - PART_PLACES;

// Shifted down by so many places or more, nothing is left of a product.
const NOTHING: u64 = 63;

// Ticks of a value whose power is kept as `down`: 2^50 of them make an ampere.
const ALONE: u64 = float::BIAS as u64 + TICK_PLACES;

// T of a value by itself, held at the first number that is too much.
pub fn alone(x: Split) -> u64
    ensures { result ≡ alone_of x }
{
    quotients::floor_scale(x.a as u64, ALONE, x.down as u64, TICKS_OVER)
}

// T of a conductance times so many microvolts, held likewise.
pub fn through(x: Split, microvolts: u64) -> u64
    requires { Drop x microvolts }
    ensures { result ≡ through_of x microvolts }
{
    quotients::floor_scale((x.a as u64) * microvolts, ALONE, x.down as u64, TICKS_OVER)
}

// A value times an exponential: in ticks, or with `more` binary places fewer.
pub fn scaled(x: Split, g: Exponential, more: u64) -> u64
    requires { Scalable x g more }
    ensures { result ≡ scaled_of x g more }
{
    whole::shift_down((x.a as u64) * g.m, whole::excess(x.down as u64 + more, g.n))
}

// The same for a junction that is mostly far below conducting: then nothing is left, and nothing is worked.
pub fn faint(x: Split, g: Exponential, more: u64) -> u64
    requires { Scalable x g more }
    ensures { result ≡ scaled_of x g more }
{
    if g.n + NOTHING <= x.down as u64 {
        return 0;
    }
    scaled(x, g, more)
}

// The exponential of the voltage from role p to role q.
pub fn exponential(t: &Table, v: &[u32; ROLES], p: usize, q: usize, o: Reciprocal) -> Exponential
    requires { Junction t.now v.now p q o }
    ensures { IsExp o.w
        (get_or (map given_back v.now) p (pos 0) -ℤ get_or (map given_back v.now) q (pos 0)) result }
{
    let a = v[p];
    let b = v[q];
    octave::exponential_at(t, volts::across(a, b), o)
}
