// The library held: none at first, then what is read from a file.
ghost use Rattle.std.specs.Prelude.{IfOk, ◌≤◌, length};

use arguments::open;
use page::{Page, ROOM};
use shelving::MOST;
use std::io;
use std::io::Read;
use std::rt::Files;

// Puts the library without cards on the shelf.
pub fn clear(shelf: &mut [u8; MOST]) {
    let _ = library::write(1, b"", &[], shelf);
}

// Reads until the file ends or the buffer is full, and gives how many bytes it put at the buffer's start.
fn read_whole<R: Read>(from: &mut R, bytes: &mut [u8; MOST]) -> io::Result<usize>
    ensures { IfOk result (λ n. n ≤ length bytes.new) }
{
    let mut n = 0;
    while n < MOST {
        let k = from.read(&mut bytes[n..])?;
        if k == 0 {
            break;
        }
        n += k;
    }
    Ok(n)
}

fn read_file(rt: &impl Files, path: &[u8], bytes: &mut [u8; MOST]) -> io::Result<usize> {
    read_whole(&mut open(rt, path)?, bytes)
}

// The library that a file holds becomes the library held.
pub fn take_library(rt: &impl Files, path: &[u8], held: &mut [u8; MOST], page: &mut Page<ROOM>) {
    let mut read = [0u8; MOST];
    match read_file(rt, path, &mut read) {
        Ok(n) => shelving::keep_library(n, &read, held, page),
        Err(_) => quoting::unreadable_line(path, page),
    }
}
