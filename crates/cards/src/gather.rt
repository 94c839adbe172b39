// The lines of a file, one by one, and what they come to: a library, or the first refusal.
ghost use Rattle.std.specs.Prelude.{◌≤◌, length};

use filing::{Kind, LINE_ROOM, Line, NAMES_ROOM, RECORDS_ROOM};
use line_read::{RECORD_BYTES, WORDS};
use refusal::Refusal;
use std::io;
use std::io::Read;

// How much is read at once.
const READ: usize = 65536;

// The most cards, the words of so many records, and the bytes of the longest library.
const MOST_CARDS: usize = 256;

const WORDS_ROOM: usize = 6144;

const LIBRARY_ROOM: usize = 53264;

const VERSION: u16 = 2;

// A line that was refused, by its number, and why.
#[derive(Clone, Copy)]
struct Fault {
    line: u64,
    refusal: Refusal,
}

// How far a file is read.
#[derive(Clone, Copy, Default)]
struct Progress {
    // how many lines have ended
    lines: u64,
    // the number of the first line of a model that waits until it is known to have ended
    model: Option<u64>,
    // how many cards are filed
    cards: usize,
    // the first refusal
    fault: Option<Fault>,
}

// The first n bytes; none where there are not so many.
fn start(bytes: &[u8], n: usize) -> &[u8]
    ensures { length result.now ≤ n }
{
    bytes.get(..n).unwrap_or_default()
}

impl Progress {
    // A refusal, where it is the first.
    fn refuse(&mut self, refusal: Refusal, line: u64) {
        self.fault = self.fault.or(Some(Fault { line, refusal }));
    }

    // The model line that waits, if one does, is filed.
    fn end_model(
        &mut self,
        model: &Line,
        names: &mut [u8; NAMES_ROOM],
        records: &mut [u8; RECORDS_ROOM],
    ) {
        let Some(first) = self.model.take() else {
            return;
        };
        match filing::file_line(model.kept(), self.cards, names, records) {
            Ok(()) => self.cards = std::num::wrapping_add_usize(self.cards, 1),
            Err(f) => self.refuse(f, first),
        }
    }

    // A line that begins a model.
    fn begin_model(&mut self, line: &[u8], model: &mut Line) {
        model.used = 0;
        model.add_text(line);
        self.model = Some(self.lines);
    }

    // A line that goes on with the model before it: what follows its `+` is joined by a space.
    fn go_on(&mut self, line: &[u8], model: &mut Line) {
        if self.model.is_none() {
            self.refuse(Refusal::BadLine, self.lines);
        } else if let [_, rest @ ..] = line {
            model.add_text(b" ");
            model.add_text(rest);
        }
    }

    // A line that has ended.
    fn end_line(
        &mut self,
        line: &[u8],
        model: &mut Line,
        names: &mut [u8; NAMES_ROOM],
        records: &mut [u8; RECORDS_ROOM],
    ) {
        self.lines = std::num::wrapping_add_u64(self.lines, 1);
        match filing::kind_of(line) {
            Kind::Passed => {}
            Kind::More => self.go_on(line, model),
            Kind::Model => {
                self.end_model(model, names, records);
                self.begin_model(line, model);
            }
        }
    }

    // What one read got, byte by byte.
    fn feed(
        &mut self,
        bytes: &[u8],
        line: &mut Line,
        model: &mut Line,
        names: &mut [u8; NAMES_ROOM],
        records: &mut [u8; RECORDS_ROOM],
    ) {
        for &b in bytes {
            if b == b'\n' {
                self.end_line(filing::bare(line.kept()), model, names, records);
                line.used = 0;
            } else {
                line.add_byte(b);
            }
        }
    }
}

// `refused` and the number of the refusal.
fn show_refused(rt: &HostRuntime, f: Refusal) -> io::Result<()> {
    rt.write_all(sheet::label_line(b"refused", refusal::number(f) as u64).shown())
}

// `line`, the number of the line, `refused` and the number of the refusal.
fn show_fault(rt: &HostRuntime, fault: Fault) -> io::Result<()> {
    rt.write_all(b"line ")?;
    rt.write_all(sheet::decimal_digits(fault.line).shown())?;
    rt.write_all(b" ")?;
    show_refused(rt, fault.refusal)
}

// The library of the first n names and records.
fn show_library(rt: &HostRuntime, names: &[u8], records: &[u8], n: usize) -> io::Result<()> {
    let mut words = [0u64; WORDS_ROOM];
    let mut library = [0u8; LIBRARY_ROOM];
    if MOST_CARDS < n {
        return Ok(());
    }
    library::load(start(records, RECORD_BYTES * n), &mut words);
    match library::write(
        VERSION,
        start(names, name::LENGTH * n),
        &words[0..WORDS * n],
        &mut library,
    ) {
        Ok(k) => rt.write_all(start(&library, k as usize)),
        Err(f) => show_refused(rt, f),
    }
}

// What was read comes to a library, or to the first refusal.
fn finish(
    rt: &HostRuntime,
    p: Progress,
    names: &[u8; NAMES_ROOM],
    records: &[u8; RECORDS_ROOM],
) -> io::Result<()> {
    match p.fault {
        None => show_library(rt, names, records, p.cards),
        Some(fault) => show_fault(rt, fault),
    }
}

// One read: how many bytes it got, 0 where the input ends or cannot be read.
fn read<R: Read>(from: &mut R, bytes: &mut [u8; READ]) -> usize {
    from.read(bytes).unwrap_or(0)
}

// Reads all that can be read. Nothing says that the input ends: the turns are counted to a number that no run uses up.
// A line end is put where the input ends, so that a last line that lacks its own is ended.
// (kept out of its callers, so that the room of one reader does not stand below that of another)
#[inline(never)]
pub fn run<R: Read>(rt: &HostRuntime, from: &mut R) -> io::Result<()> {
    let mut bytes = [0u8; READ];
    let mut line = Line {
        bytes: [0u8; LINE_ROOM],
        used: 0,
    };
    let mut model = Line {
        bytes: [0u8; LINE_ROOM],
        used: 0,
    };
    let mut names = [0u8; NAMES_ROOM];
    let mut records = [0u8; RECORDS_ROOM];
    let mut progress = Progress::default();
    for _ in 0..u64::MAX {
        let got = read(from, &mut bytes);
        if got == 0 {
            progress.feed(b"\n", &mut line, &mut model, &mut names, &mut records);
            progress.end_model(&model, &mut names, &mut records);
            return finish(rt, progress, &names, &records);
        }
        progress.feed(
            start(&bytes, got),
            &mut line,
            &mut model,
            &mut names,
            &mut records,
        );
    }
    Ok(())
}
