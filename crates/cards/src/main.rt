// Reads model lines on standard input and writes the library of their cards, or the number of the first line that is
// refused, and why; or, given arguments, does so for each file that one of them names, in turn, where `-` names
// standard input.
#![tactic(auto)]

mod gather; // gather.rt: the lines of a file, one by one, and what they come to

use arguments::Work;
use std::io;
use std::io::Read;

struct Cards;

impl Work for Cards {
    // Standard output can fail in any way.
    ghost fails = { λ _. Unit };

    fn on<R: Read>(&self, rt: &HostRuntime, from: &mut R) -> io::Result<()> {
        gather::run(rt, from)
    }
}

fn main(rt: HostRuntime) -> io::Result<()> {
    arguments::for_each_input(&rt, &Cards)
}
