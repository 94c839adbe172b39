// Differences and shifts. Nothing here is above 64 bits.
#![tactic(auto)]

ghost use Rattle.std.specs.Prelude.{◌≡◌, ◌-◌, ◌/◌, ◌^◌, ◌<◌};
ghost use Rattle.std.proofs.Math.IntN.{sub_ℕ};
ghost use Rattle.whole.specs.Signed.{signed_span, Subtractable};

// Binary places of a signed word beside its sign.
const SIGNED_PLACES: u64 = 63;

// a - b.
pub fn difference(a: u64, b: u64) -> i64
    requires { Subtractable a b }
    ensures { result ≡ sub_ℕ a b }
{
    a as i64 - b as i64
}

// x / 2^s, rounded downward. No branch: from SIGNED_PLACES on every shift leaves nothing.
pub fn shift_down(x: u64, s: u64) -> u64
    requires { x < signed_span }
    ensures { result ≡ x / 2 ^ s }
{
    x >> s.min(SIGNED_PLACES)
}

// a - b; 0 where b is more.
pub fn excess(a: u64, b: u64) -> u64
    ensures { result ≡ a - b }
{
    a.saturating_sub(b)
}
