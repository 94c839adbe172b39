// The library on an input, shown card by card.
#![tactic(auto)]

use arguments::{Work, read_full};
use std::io;
use std::io::Read;

// What is written of a library: what stands before its cards, by how many there are, and of each card something by its
// name, without padding, and its record.
pub trait Shown {
    fn head(&self, rt: &HostRuntime, cards: u32) -> io::Result<()>;

    fn card(&self, rt: &HostRuntime, name: &[u8], record: &[u8]) -> io::Result<()>;
}

pub struct ByCard<S> {
    pub shown: S,
}

// The cards of the first n names, each with the record of its number.
fn show_cards<S: Shown>(
    rt: &HostRuntime,
    shown: &S,
    library: &[u8],
    names: &[u8],
    n: u32,
) -> io::Result<()> {
    for (k, padded) in names
        .chunks_exact(name::LENGTH)
        .take(n as usize)
        .enumerate()
    {
        shown.card(rt, sheet::bare_name(padded), library::record_at(library, k))?;
    }
    Ok(())
}

// The library is judged once, in reading it.
fn show_library<S: Shown>(rt: &HostRuntime, shown: &S, library: &[u8]) -> io::Result<()> {
    let mut names = [0u8; 4096];
    let mut words = [0u64; 6144];
    match library::read(library, &mut names, &mut words) {
        Ok(contents) => {
            shown.head(rt, contents.cards)?;
            show_cards(rt, shown, library, &names, contents.cards)
        }
        Err(f) => rt.write_all(sheet::label_line(b"refused", refusal::number(f) as u64).shown()),
    }
}

impl<S: Shown> Work for ByCard<S> {
    // Standard output can fail in any way.
    ghost fails = { λ _. Unit };

    // At most one byte more than the longest library is read.
    fn on<R: Read>(&self, rt: &HostRuntime, from: &mut R) -> io::Result<()> {
        let mut bytes = [0u8; 53265];
        let n = read_full(from, &mut bytes);
        show_library(rt, &self.shown, &bytes[..n])
    }
}
