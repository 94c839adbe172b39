// The octave and the second octave, from f64 to whole nanovolts; in `knee` V_Lr.
#![tactic(auto)]

ghost use Rattle.std.specs.Prelude.{◌≡◌, true, T};
ghost use Rattle.std.specs.Float.Ieee.Positive.{above};
ghost use Rattle.loading.specs.Octave.{whole_part, octave_good};
ghost use Rattle.octaves.specs.inner.Second.{second_of};

pub use loading::clip;

pub mod knee; // knee.rt: V_Lr

// The least octave and the most, in nanovolts, and the least second octave that is too large.
const LEAST: f64 = 10000000.0;

const MOST: f64 = 50000000.0;

const SECOND_OVER: f64 = 1000000001.0;

// Whether x is a whole number from the least to the most.
pub fn is_octave(x: f64) -> bool
    ensures { result ≡ octave_good x }
{
    if x >= LEAST && x <= MOST {
        let n = std::num::truncating_f64_to_u64(x);
        return (n as f64).to_bits() == x.to_bits();
    }
    false
}

// An octave in nanovolts.
pub fn nanovolts(x: f64) -> u32
    requires { octave_good x ≡ true }
    ensures { result ≡ whole_part x }
{
    std::num::truncating_f64_to_u64(x) as u32
}

// The second octave in nanovolts, which is the whole part of m_Lf times the octave, where it is not too large.
pub fn second_of(y: f64) -> Option<u32>
    requires { T (above y) }
    ensures { result ≡ second_of y }
{
    if y < SECOND_OVER {
        Some(std::num::truncating_f64_to_u64(y) as u32)
    } else {
        None
    }
}
