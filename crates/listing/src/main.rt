// Lists the cards of the library on standard input; or, given arguments, of each library that one of them names, in
// turn, where `-` names standard input.
#![tactic(auto)]

use by_card::{ByCard, Shown};
use std::io;

struct Listing;

impl Shown for Listing {
    fn head(&self, rt: &HostRuntime, cards: u32) -> io::Result<()> {
        rt.write_all(sheet::label_line(b"cards", cards as u64).shown())
    }

    fn card(&self, rt: &HostRuntime, name: &[u8], record: &[u8]) -> io::Result<()> {
        rt.write_all(sheet::listing_line(name, record).shown())
    }
}

fn main(rt: HostRuntime) -> io::Result<()> {
    arguments::for_each_input(&rt, &ByCard { shown: Listing })
}
