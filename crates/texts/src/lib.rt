// A text written on a page.
#![tactic(auto)]

ghost use Rattle.page.specs.Page.{Writes, WritesAfter};
ghost use Rattle.sheet.specs.Text.{shown};

use page::Page;
use sheet::Text;

// The bytes that a text shows; one with a count past its room shows them all.
pub fn put_text<const N: usize>(t: Text, page: &mut Page<N>)
    ensures { Writes (shown t) page.old page.new }
{
    page.used = put_text_after(t, &mut page.bytes, page.used);
}

// The same in a lent buffer after its first `at` bytes; gives how many bytes are used then.
pub fn put_text_after(t: Text, out: &mut [u8], at: usize) -> usize
    ensures { WritesAfter (shown t) out.old at out.new result }
{
    page::put(t.shown(), out, at)
}
