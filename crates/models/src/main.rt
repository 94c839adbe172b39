// Writes a model line for each card of the library on standard input, in the library's order; or, given arguments, of
// each library that one of them names, in turn, where `-` names standard input.
#![tactic(auto)]

use by_card::{ByCard, Shown};
use std::io;

// Room for the longest line.
const ROOM: usize = 640;

struct Models;

impl Shown for Models {
    fn head(&self, _rt: &HostRuntime, _cards: u32) -> io::Result<()> {
        Ok(())
    }

    // A card's line; where the writer refuses it, a comment that says so.
    fn card(&self, rt: &HostRuntime, name: &[u8], record: &[u8]) -> io::Result<()> {
        let mut line = [0u8; ROOM];
        match line_write::write_line(name, record, &mut line) {
            Ok(n) => {
                rt.write_all(line.get(..n).unwrap_or_default())?;
                rt.write_all(b"\n")
            }
            Err(f) => {
                rt.write_all(b"* ")?;
                rt.write_all(name)?;
                rt.write_all(b" ")?;
                rt.write_all(sheet::label_line(b"refused", refusal::number(f) as u64).shown())
            }
        }
    }
}

fn main(rt: HostRuntime) -> io::Result<()> {
    arguments::for_each_input(&rt, &ByCard { shown: Models })
}
