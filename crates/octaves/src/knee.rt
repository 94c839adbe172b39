// V_Lr, from f64 to whole microvolts.
ghost use Rattle.std.specs.Prelude.{◌≡◌, true};
ghost use Rattle.loading.specs.Knee.{knee_good, knee_of};

use loading::working;

// The most that V_Lr may be in size.
const MOST: f64 = 5.0;

// The same in microvolts, the largest voltage from one node to another: raised by it, no V_Lr is negative.
const RAISE: u64 = 5000000;

// Whether x is at most the most in size.
pub fn is_knee(x: f64) -> bool
    ensures { result ≡ knee_good x }
{
    x <= MOST && -x <= MOST
}

// The whole microvolts of x, cut toward zero and raised.
pub fn microvolts(x: f64) -> u32
    requires { knee_good x ≡ true }
    ensures { result ≡ knee_of x }
{
    let y = x * working::MICROVOLTS;
    if y < 0.0 {
        (RAISE - std::num::truncating_f64_to_u64(-y)) as u32
    } else {
        (RAISE + std::num::truncating_f64_to_u64(y)) as u32
    }
}
