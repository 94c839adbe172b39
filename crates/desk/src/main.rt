// The desk at work: obeys the commands of each script that an argument names, one script after the other, or those of
// standard input where none is named. An option holds for the scripts after it.
#![tactic(auto)]

mod options; // options.rt: what the arguments ask for
mod help; // help.rt: the options and the commands, as they are printed
mod out; // out.rt: what waits, written
mod shelf; // shelf.rt: the library held, none at first, then read from a file
mod showing; // showing.rt: a line repeated, and a refusal explained
mod lines; // lines.rt: a script obeyed, line by line

use options::{Argument, Options};
use saying::part;
use std::io;

// `-` is standard input. What does not open is not read.
fn obey_script(rt: &HostRuntime, path: &[u8], asked: Options) -> io::Result<()> {
    if path == b"-".as_slice() {
        return lines::run(rt, &mut rt.stdin(), path, asked);
    }
    match arguments::open(rt, path) {
        Ok(mut file) => lines::run(rt, &mut file, path, asked),
        Err(_) => out::write_unreadable(rt, path),
    }
}

fn obey_argument(rt: &HostRuntime, i: usize, asked: Options) -> io::Result<()> {
    let mut path = [0u8; 131072];
    let n = arguments::arg(rt, i, &mut path).unwrap_or(0);
    obey_script(rt, part(&path, 0, n), asked)
}

// What an argument is, where there is one.
fn argument_at(rt: &HostRuntime, i: usize) -> Option<Argument> {
    let mut word = [0u8; 131072];
    let n = arguments::arg(rt, i, &mut word)?;
    Some(options::named(part(&word, 0, n)))
}

fn main(rt: HostRuntime) -> io::Result<()> {
    let mut asked = Options::default();
    let mut idle = true;
    for i in 1..usize::MAX {
        let Some(argument) = argument_at(&rt, i) else {
            break;
        };
        match argument {
            Argument::Help => return help::put_help(&rt),
            Argument::Script => {
                obey_argument(&rt, i, asked)?;
                idle = false;
            }
            Argument::Poke => asked.pokes = true,
            Argument::Explain => asked.explains = true,
            Argument::Echo => asked.echoes = true,
        }
    }
    if idle {
        return lines::run(&rt, &mut rt.stdin(), b"-", asked);
    }
    Ok(())
}
