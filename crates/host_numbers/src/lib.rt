// Signed numbers handed to a host, in the buffer that it lends.
#![tactic(auto)]

ghost use Rattle.std.specs.Prelude.{◌≡◌, leb, length};
ghost use Rattle.host_numbers.specs.Filled.{filled_if};

// Numbers put at the start of a buffer, where it has room for all of them; tells whether it has.
pub fn put_numbers(numbers: &[i64], buffer: &mut [i64]) -> bool
    ensures value { result ≡ leb (length numbers.now) (length buffer.old) }
    ensures buffer_after { buffer.new ≡ filled_if result numbers.now buffer.old }
{
    if buffer.len() < numbers.len() {
        return false;
    }
    buffer[..numbers.len()].copy_from_slice(numbers);
    true
}
