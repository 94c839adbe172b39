// A script obeyed, line by line.
ghost use Rattle.std.specs.Prelude.{IfOk};
ghost use Rattle.obeying.specs.OfBoard.Promise.{Reached};

use crate::options::Options;
use crate::out::{flush, write_unreadable};
use crate::shelf::{clear, take_library};
use crate::showing::{begin, end};
use obeying::board::Board;
use page::{Page, ROOM};
use saying::part;
use script::{MOST_BYTES, Verb};
use shelving::MOST;
use std::io;
use std::io::Read;
use std::rt::Files;
use totals::NODES;

// One byte more than the longest line: one that is longer is cut there, and is too long all the same.
const LINE: usize = script::LONGEST_LINE + 1;

// How much is read at once.
const READ: usize = 65536;

// One read. Where nothing came a line end stands there, so that a last line that lacks its own is ended.
fn read<R: Read>(from: &mut R, bytes: &mut [u8; READ]) -> io::Result<usize> {
    let got = from.read(bytes);
    if !matches!(got, Ok(1..)) {
        bytes[0] = b'\n';
    }
    got
}

// What a read got, or the line end.
fn taken<'a>(got: &io::Result<usize>, bytes: &'a [u8; READ]) -> &'a [u8] {
    match got {
        Ok(0) | Err(_) => part(bytes, 0, 1),
        Ok(n) => part(bytes, 0, *n),
    }
}

// Obeys a line that has ended, by whether it may poke. `spelled` is room for the bytes that hex digits spell.
fn obey_line(
    rt: &impl Files,
    board: Board,
    volts: &mut [i64; NODES],
    totals: &mut [i64; NODES],
    pokes: bool,
    line: &[u8],
    spelled: &mut [u8; MOST_BYTES],
    held: &mut [u8; MOST],
    page: &mut Page<ROOM>,
) -> Board
    requires { Reached board }
    ensures { Reached result }
{
    let c = script::read(line, spelled);
    match c.verb {
        Verb::Library => {
            take_library(rt, script::word(line, c.words, 1), held, page);
            board
        }
        _ => obeying::obey(board, volts, totals, pokes, c, line, spelled, held, page),
    }
}

// Takes bytes of a script; what there is of a line that has not ended is in `line`. After a write that failed no line
// is obeyed.
fn feed(
    rt: &HostRuntime,
    board: Board,
    volts: &mut [i64; NODES],
    totals: &mut [i64; NODES],
    asked: Options,
    more: &[u8],
    line: &mut Page<LINE>,
    held: &mut [u8; MOST],
    page: &mut Page<ROOM>,
) -> io::Result<Board>
    requires { Reached board }
    ensures { IfOk result Reached }
{
    let mut spelled = [0u8; MOST_BYTES];
    let mut current = board;
    for &b in more {
        if b != b'\n' {
            line.put(&[b]);
            continue;
        }
        begin(rt, asked, page)?;
        current = obey_line(
            rt,
            current,
            volts,
            totals,
            asked.pokes,
            line.written(),
            &mut spelled,
            held,
            page,
        );
        end(rt, asked, line.written(), page)?;
        line.used = 0;
    }
    Ok(current)
}

// Writes what waits, and a word on a read that failed.
fn write_out(
    rt: &HostRuntime,
    got: &io::Result<usize>,
    path: &[u8],
    page: &mut Page<ROOM>,
) -> io::Result<()> {
    flush(rt, page)?;
    match got {
        Ok(_) => Ok(()),
        Err(_) => write_unreadable(rt, path),
    }
}

// Obeys all that can be read. Nothing says that the input ends: the turns are counted to a number that no run uses up.
pub fn run<R: Read>(rt: &HostRuntime, from: &mut R, path: &[u8], asked: Options) -> io::Result<()> {
    let mut bytes = [0u8; READ];
    let mut line = Page {
        bytes: [0u8; LINE],
        used: 0,
    };
    let mut held = [0u8; MOST];
    let mut page = Page {
        bytes: [0u8; ROOM],
        used: 0,
    };
    let mut volts = [0i64; NODES];
    let mut totals = [0i64; NODES];
    let mut board = Board::fresh(&mut volts, &mut totals).board;
    clear(&mut held);
    for _ in 0..u64::MAX {
        let got = read(from, &mut bytes);
        board = feed(
            rt,
            board,
            &mut volts,
            &mut totals,
            asked,
            taken(&got, &bytes),
            &mut line,
            &mut held,
            &mut page,
        )?;
        write_out(rt, &got, path, &mut page)?;
        if matches!(got, Ok(0) | Err(_)) {
            break;
        }
    }
    Ok(())
}
