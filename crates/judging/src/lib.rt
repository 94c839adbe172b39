// A total judged as it would stand.
#![tactic(auto)]

ghost use Rattle.std.specs.Prelude.{◌≡◌, ◌+ℤ◌, ◌-ℤ◌};
ghost use Rattle.slices.specs.Slices.{standing_at};

// A total with what comes in and less what goes out, where it stays in 64 bits; exactly, in 128.
pub fn stand(total: i64, coming: i64, going: i64) -> Option<i64>
    ensures { result ≡ standing_at (total +ℤ (coming -ℤ going)) }
{
    let stood = total as i128 + (coming as i128 - going as i128);
    i64::try_from(stood).ok()
}
