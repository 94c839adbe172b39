// Hex digits of either case, two to a byte.
ghost use Rattle.std.specs.Prelude.{◌≡◌, ◌/◌, ◌≤◌, ◌<◌, length};
ghost use Rattle.bytes_le.specs.Buffer.{over};
ghost use Rattle.hex_bytes.specs.Hex.{is_hex, nibble_of, is_dash, all_pairs, pairs_of};

fn is_hex(b: u8) -> bool
    ensures { result ≡ is_hex b }
{
    b.is_ascii_hexdigit()
}

fn nibble(b: u8) -> u8
    ensures { (result ≡ nibble_of b) × (result < 16) }
{
    match b {
        b'0'..=b'9' => b - 48,
        b'A'..=b'F' => b - 55,
        b'a'..=b'f' => b - 87,
        _ => 0,
    }
}

pub(crate) fn is_dash(word: &[u8]) -> bool
    ensures { result ≡ is_dash word.now }
{
    word == b"-".as_slice()
}

// Whether there are hex digits alone, and two for each byte.
pub(crate) fn are_pairs(word: &[u8]) -> bool
    ensures { result ≡ all_pairs word.now }
{
    let mut t = word;
    while let [high, low, rest @ ..] = t {
        if !is_hex(*high) {
            return false;
        }
        if !is_hex(*low) {
            return false;
        }
        t = rest;
    }
    t.is_empty()
}

// Puts the bytes that the pairs spell at the start of `out`.
pub(crate) fn fill(word: &[u8], out: &mut [u8])
    requires { length word.now / 2 ≤ length out.old }
    ensures { out.new ≡ over (pairs_of word.now) out.old }
{
    for i in 0..word.len() / 2 {
        out[i] = 16 * nibble(word[2 * i]) + nibble(word[2 * i + 1]);
    }
}
