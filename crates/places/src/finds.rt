// Looking through the places of cards and transistors. A place whose issue is 0 is empty.
ghost use Rattle.std.specs.Prelude.{◌≡◌};
ghost use Rattle.places.specs.Finding.{found_at, on_card};
ghost use Rattle.places.specs.inner.Parts.{found};
ghost use Rattle.places.specs.inner.Flat.{first_at, number_place, any_on};

use crate::TRANSISTORS;

// The first place that holds the number.
pub fn find<const N: usize>(numbers: &[u32; N], n: u32) -> Option<usize>
    ensures { found result ≡ found_at N (first_at N n numbers.now) }
{
    for (i, x) in numbers.iter().enumerate() {
        if *x == n {
            return Some(i);
        }
    }
    None
}

// The place of an issue number; 0 has none.
pub fn place_of<const N: usize>(numbers: &[u32; N], n: u32) -> Option<usize>
    ensures { found result ≡ number_place N n numbers.now }
{
    if n == 0 {
        return None;
    }
    find(numbers, n)
}

// Whether a transistor stands on the card.
fn is_on(issue: u32, card: u32, n: u32) -> bool
    ensures { result ≡ on_card n issue card }
{
    issue != 0 && card == n
}

pub fn any_on(issues: &[u32; TRANSISTORS], cards: &[u32; TRANSISTORS], n: u32) -> bool
    ensures { result ≡ any_on n issues.now cards.now }
{
    for i in 0..TRANSISTORS {
        if is_on(issues[i], cards[i], n) {
            return true;
        }
    }
    false
}
