// The lines that quote what they were given: a line that is no command, a file that cannot be read, a model line.
#![tactic(auto)]

ghost use Rattle.page.specs.Page.{Writes, WritesAfter};
ghost use Rattle.quoting.specs.Quotes.{error_line, unreadable_line, model_line};

use page::Page;

// How many bytes of the first word an error shows.
const SHOWN_BYTES: usize = 32;

// A line that is no command, by its first word.
pub fn error_line<const N: usize>(first: &[u8], page: &mut Page<N>)
    ensures { Writes (error_line first.now) page.old page.new }
{
    page.put(b"error ");
    page.put(&first[..SHOWN_BYTES.min(first.len())]);
    page.put(b"\n");
}

// A file that cannot be read; what the page has no room for is left out.
pub fn unreadable_line<const N: usize>(path: &[u8], page: &mut Page<N>)
    ensures { Writes (unreadable_line path.now) page.old page.new }
{
    page.used = unreadable_after(path, &mut page.bytes, page.used);
}

// The same in a lent buffer after its first `at` bytes; gives how many bytes are used then.
pub fn unreadable_after(path: &[u8], out: &mut [u8], at: usize) -> usize
    ensures { WritesAfter (unreadable_line path.now) out.old at out.new result }
{
    let start = page::put(b"error cannot read ", out, at);
    let named = page::put(path, out, start);
    page::put(b"\n", out, named)
}

// The model line of a card; what the page has no room for is left out.
pub fn model_line<const N: usize>(line: &[u8], page: &mut Page<N>)
    ensures { Writes (model_line line.now) page.old page.new }
{
    page.used = model_after(line, &mut page.bytes, page.used);
}

// The same in a lent buffer after its first `at` bytes; gives how many bytes are used then.
pub fn model_after(line: &[u8], out: &mut [u8], at: usize) -> usize
    ensures { WritesAfter (model_line line.now) out.old at out.new result }
{
    let ended = page::put(line, out, at);
    page::put(b"\n", out, ended)
}
