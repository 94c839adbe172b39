// The arguments of a program, and the files that they name.
#![tactic(auto)]

ghost use Rattle.std.specs.Prelude.{◌≤◌, length, IfSome, IfErr, OnOk, IsUtf8};
ghost use Rattle.std.specs.declared.io.Error.{Error};

use std::env::FillError;
use std::io::{Cursor, Read, Write};
use std::rt::{Env, Files};
use std::{fs, io};

// Room for a path.
const PATH_ROOM: usize = 4096;

// Room for the reason of a failure.
const REASON_ROOM: usize = 256;

// Puts argument i at the start of the buffer and gives its length, 0 where it is longer than the buffer; argument 0 is
// the program's own name.
pub fn arg(rt: &impl Env, i: usize, buf: &mut [u8]) -> Option<usize>
    ensures { IfSome result (λ n. n ≤ length buf.new) }
{
    match rt.arg(i, buf) {
        Ok(n) => Some(n),
        Err(FillError::NotPresent) => None,
        Err(_) => Some(0),
    }
}

// Opens a file to be read. A path is text: what is no UTF-8 names no file.
pub fn open<R: Files>(rt: &R, path: &[u8]) -> io::Result<R::File>
    ensures { OnOk result (IsUtf8 path.now) }
{
    match std::str::from_utf8(path) {
        Ok(text) => fs::open(rt, text),
        Err(_) => Err(io::Error::from(io::ErrorKind::InvalidFilename)),
    }
}

// Reads until the buffer is full, the input ends or a read fails, and gives how many bytes it put at the buffer's
// start.
pub fn read_full<R: Read>(from: &mut R, buf: &mut [u8]) -> usize
    ensures { result ≤ length buf.new }
{
    let mut done = 0;
    while done < buf.len() {
        match from.read(&mut buf[done..]) {
            Ok(0) => break,
            Ok(n) => done += n,
            Err(_) => break,
        }
    }
    done
}

// The words of a reason, without the error's number in brackets after them.
fn words(reason: &[u8]) -> &[u8] {
    match reason.iter().position(|b| *b == b'(') {
        Some(n) => &reason[..n.saturating_sub(1)],
        None => reason,
    }
}

// Writes a line: the path, a colon and why it does not open.
fn fail<W: Write>(to: &mut W, path: &[u8], e: io::Error) -> io::Result<()> {
    let mut text = [0u8; REASON_ROOM];
    let mut at = Cursor::new(&mut text[..]);
    write!(at, "{e}")?;
    let n = at.position() as usize;
    to.write_all(path)?;
    to.write_all(b": ")?;
    to.write_all(words(&text[..n.min(REASON_ROOM)]))?;
    to.write_all(b"\n")
}

// What a program does with an input.
pub trait Work {
    // What its errors are.
    ghost fails: { Error → Type 0 };

    fn on<R: Read>(&self, rt: &HostRuntime, from: &mut R) -> io::Result<()>
        ensures { IfErr result fails };
}

// Does the work on each input that an argument names, in turn, where `-` names standard input; on standard input where
// there is no argument. Of a file that does not open it is said why, where standard error takes it. What fails is the work
// alone.
pub fn for_each_input<W: Work>(rt: &HostRuntime, work: &W) -> io::Result<()>
    ensures { IfErr result W.fails }
{
    for i in 1..usize::MAX {
        let mut buf = [0u8; PATH_ROOM];
        let Some(n) = arg(rt, i, &mut buf) else {
            if i == 1 {
                return work.on(rt, &mut rt.stdin());
            }
            break;
        };
        let path = &buf[..n];
        if path == b"-".as_slice() {
            work.on(rt, &mut rt.stdin())?;
            continue;
        }
        match open(rt, path) {
            Ok(mut file) => work.on(rt, &mut file)?,
            Err(e) => {
                let _ = fail(&mut rt.stderr(), path, e);
            }
        }
    }
    Ok(())
}
