// What a listing shows of a card: its name without padding, and its mask or none.
#![tactic(auto)]

ghost use Rattle.std.specs.Prelude.{◌≡◌};
ghost use Rattle.listed.specs.Listed.{unpadded, listed_mask};

// A name without its padding: the part before the first zero.
pub fn bare_name(padded: &[u8]) -> &[u8]
    ensures { result.now ≡ unpadded padded.now }
{
    match padded.iter().position(|b| *b == 0) {
        Some(n) => &padded[..n],
        None => padded,
    }
}

// The mask that is listed beside a number.
pub fn listed_mask(number: u32, mask: u32) -> u32
    ensures { result ≡ listed_mask number mask }
{
    match number {
        6..=10 | 19 => 0,
        _ => mask,
    }
}
