// A card's record in a library: found by the card's name, or handed out by its number.
#![tactic(auto)]

ghost use Rattle.std.specs.Prelude.{◌≡◌};
ghost use Rattle.std.specs.List.{position};
ghost use Rattle.name.specs.Name.{same};
ghost use Rattle.refusal.specs.Order.{tells};
ghost use Rattle.roll.specs.Directory.{names_in};
ghost use Rattle.finding.specs.Answers.{told_located, locating, Finds, HandsOut};

use bytes_le::WORD_BYTES;
use directory::{HEADER_BYTES, NAME_BYTES, Numbers};
use refusal::Refusal;

// The place of a record in a library: of its first byte, and how many bytes there are.
#[derive(Clone, Copy)]
pub struct Place {
    pub at: usize,
    pub size: usize,
}

// The number of a padded name among those of a directory, compared where they stand.
fn search(d: &[u8], x: &[u8; NAME_BYTES]) -> Option<usize>
    ensures { result ≡ position (same x.now) (names_in d.now) }
{
    let low = bytes_le::u64_at(x, 0);
    let high = bytes_le::u64_at(x, WORD_BYTES);
    d.chunks_exact(NAME_BYTES)
        .position(|y| name::stands_at(y, 0, low, high))
}

// The place of a card's record in a library, by the card's name.
pub fn locate(library: &[u8], name: &[u8]) -> Result<Place, Refusal>
    ensures { told_located result ≡ tells (locating library.now name.now) }
{
    let Numbers { cards, words } = directory::inspect(library)?;
    if !name::is_asked(name) {
        return Err(Refusal::BadName);
    }
    let e = HEADER_BYTES + NAME_BYTES * cards;
    let wanted = name::pad(name);
    let Some(i) = search(&library[HEADER_BYTES..e], &wanted) else {
        return Err(Refusal::NameNotHeld);
    };
    let at = e + WORD_BYTES * (words * i);
    let size = WORD_BYTES * words;
    Ok(Place { at, size })
}

// The record of a card as a part of the library, by the card's name; the empty part where `locate` refuses.
pub fn find<'a>(library: &'a [u8], name: &[u8]) -> &'a [u8]
    ensures { Finds library.entry name.now result }
{
    match locate(library, name) {
        Ok(p) => &library[p.at..p.at + p.size],
        Err(_) => &library[..0],
    }
}

// The record of card k as a part of the library, by the header alone: in a library that was read it is the record of
// the k-th name.
// The empty part where k is none of the cards, or the library ends too soon.
pub fn record_at(library: &[u8], k: usize) -> &[u8]
    ensures { HandsOut library.entry k result }
{
    let words = directory::width(bytes_le::u16_at(library, 0));
    let cards = bytes_le::u16_at(library, 2) as usize;
    if cards <= k {
        return &library[..0];
    }
    let at = HEADER_BYTES + NAME_BYTES * cards + WORD_BYTES * (words * k);
    let end = at + WORD_BYTES * words;
    if library.len() < end {
        return &library[..0];
    }
    &library[at..end]
}
