// The line that answers a command, written on a page.
#![tactic(auto)]

ghost use Rattle.page.specs.Page.{Writes};
ghost use Rattle.answers.specs.Answers.{answer_line};

mod parts; // parts.rt: what the answers are made of

use page::{Page, ROOM};
use refusal::Refusal;

// An answer; those to `clip`, `currents`, `who` and `sum` are apart (`spaced`), and so are those to `model`, an
// unreadable file and a line that is no command (`quoting`).
#[derive(Clone, Copy)]
pub enum Answer {
    Library(u32),
    Offset(usize),
    Card(u32),
    Transistor(u32),
    Moved,
    Lifted,
    Withdrawn,
    // a node, its microvolts and its ticks
    Reading(u32, i64, i64),
    Sheet,
    Refused(Refusal),
    TooLong,
    // how many cards of the library held were mended
    Mended(u32),
    Poked,
}

pub fn answer_line(a: Answer, page: &mut Page<ROOM>)
    ensures { Writes (answer_line a) page.old page.new }
{
    match a {
        Answer::Library(n) => parts::label(b"library", n as u64, page),
        Answer::Offset(n) => parts::label(b"record", n as u64, page),
        Answer::Card(n) => parts::label(b"card", n as u64, page),
        Answer::Transistor(n) => parts::label(b"transistor", n as u64, page),
        Answer::Moved => page.put(b"moved\n"),
        Answer::Lifted => page.put(b"lifted\n"),
        Answer::Withdrawn => page.put(b"withdrawn\n"),
        Answer::Reading(node, v, t) => texts::put_text(sheet::node_line(node, v, t), page),
        Answer::Sheet => parts::label(b"sheet", parts::SHEET_NODES, page),
        Answer::Refused(f) => parts::refused(f, page),
        Answer::TooLong => page.put(b"error line too long\n"),
        Answer::Mended(n) => parts::label(b"mended", n as u64, page),
        Answer::Poked => page.put(b"poked\n"),
    }
}
