// What the answers to several lines have in common. What there is no room for on a page is left out.
#![tactic(auto)]

ghost use Rattle.std.specs.Prelude.{◌≡◌, ◌+◌};
ghost use Rattle.words.specs.Words.{part_of};
ghost use Rattle.page.specs.Page.{Writes};
ghost use Rattle.answers.specs.declared.Answer.TheVariants.{Refused};
ghost use Rattle.answers.specs.Answers.{answer_line};

use answers::Answer;
use page::{Page, ROOM};
use refusal::Refusal;

// Room for the longest answer to a line.
pub const ANSWERS: usize = 8192;

// The n bytes from a place on; none where there are not so many.
pub fn part(s: &[u8], at: usize, n: usize) -> &[u8]
    ensures { result.now ≡ part_of s.now at (at + n) }
{
    s.get(at..).unwrap_or_default().get(..n).unwrap_or_default()
}

pub fn put_refused(f: Refusal, page: &mut Page<ROOM>)
    ensures { Writes (answer_line (Refused f)) page.old page.new }
{
    answers::answer_line(Answer::Refused(f), page);
}
