// A line repeated before its answer, and a refusal explained after it. For these the answer stands alone among the
// bytes that wait: what waited before is written first, and no answer fills their room.
use crate::options::Options;
use crate::out::{flush, make_room};
use explaining::EXPLANATION_ROOM;
use page::{Page, ROOM};
use saying::part;
use std::io;

// Before a line is obeyed.
pub fn begin(rt: &HostRuntime, o: Options, page: &mut Page<ROOM>) -> io::Result<()> {
    if o.explains || o.echoes {
        flush(rt, page)
    } else {
        make_room(rt, page)
    }
}

// Repeats a line; one that is too long is not repeated.
fn echo(rt: &HostRuntime, line: &[u8]) -> io::Result<()> {
    if line.len() <= script::LONGEST_LINE {
        rt.write_all(line)?;
        rt.write_all(b"\n")?;
    }
    Ok(())
}

// Puts what explains the answer of n bytes and a newline after it.
fn explain(n: usize, page: &mut Page<ROOM>) {
    let mut text = Page {
        bytes: [0u8; EXPLANATION_ROOM],
        used: 0,
    };
    explaining::explain_line(part(&page.bytes, 0, n), &mut text);
    page.put(text.written());
}

// After a line was obeyed. Where nothing waits it had no answer.
pub fn end(rt: &HostRuntime, o: Options, line: &[u8], page: &mut Page<ROOM>) -> io::Result<()> {
    let n = page.used;
    if n == 0 {
        return Ok(());
    }
    if o.echoes {
        echo(rt, line)?;
    }
    if o.explains {
        explain(n - 1, page);
    }
    Ok(())
}
