// What the answers are made of.
ghost use Rattle.std.specs.Prelude.{◌≤◌, length};
ghost use Rattle.refusal.specs.Told.{told};
ghost use Rattle.sheet.specs.Lines.{label_line, told_line};
ghost use Rattle.page.specs.Page.{Writes};

use page::{Page, ROOM};
use refusal::Refusal;

// How many nodes a sheet has.
pub(crate) const SHEET_NODES: u64 = 32;

// A short word and a number.
pub(crate) fn label(word: &[u8], n: u64, page: &mut Page<ROOM>)
    requires { length word.now ≤ 16 }
    ensures { Writes (label_line word.now n) page.old page.new }
{
    texts::put_text(sheet::label_line(word, n), page);
}

// A refusal: its number, and who overloads in which branch where it tells that.
pub(crate) fn refused(f: Refusal, page: &mut Page<ROOM>)
    ensures { Writes (told_line (told f)) page.old page.new }
{
    let n = refusal::number(f);
    match f {
        Refusal::Overload(issue, branch) | Refusal::Injection(issue, branch) => {
            texts::put_text(sheet::told_line(n, issue, branch), page)
        }
        _ => label(b"refused", n as u64, page),
    }
}
