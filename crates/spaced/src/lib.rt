// The lines of as many numbers as there are: a transistor's currents, who names a node and its sum.
#![tactic(auto)]

ghost use Rattle.std.specs.Prelude.{◌≡◌, List, ℕ};
ghost use Rattle.sheet.specs.Text.{text_of};
ghost use Rattle.sheet.specs.Digits.{decimal_of};
ghost use Rattle.page.specs.Page.{Writes};
ghost use Rattle.spaced.specs.Spaced.{spaced_line, Spells, currents_line, who_line, sum_line};

use page::{Page, ROOM};
use sheet::Text;

// The text of each, where that spells its digits, with a space before each, and the newline after them.
pub fn put_each<T: Copy, F: Fn(T) -> Text>(xs: &[T], text: F, page: &mut Page<ROOM>)
    requires { F.IsAlwaysCallable text }
    ensures { (digits : T → List ℕ) → Spells (F.post text) digits xs.now
        → Writes (spaced_line digits xs.now) page.old page.new }
{
    for x in xs {
        page.put(b" ");
        texts::put_text(text(*x), page);
    }
    page.put(b"\n");
}

// The currents of a transistor, a number for each branch.
pub fn currents_line(ticks: &[i64], page: &mut Page<ROOM>)
    ensures { Writes (currents_line ticks.now) page.old page.new }
{
    page.put(b"currents");
    put_each(ticks, sheet::signed_digits, page);
}

fn issue_digits(issue: u32) -> Text
    ensures { result ≡ text_of (decimal_of issue) }
{
    sheet::decimal_digits(issue as u64)
}

// Who names a node, by issue numbers.
pub fn who_line(issues: &[u32], page: &mut Page<ROOM>)
    ensures { Writes (who_line issues.now) page.old page.new }
{
    page.put(b"who");
    put_each(issues, issue_digits, page);
}

// A node summed up: its transistors, their cards, and the largest of its branches.
pub fn sum_line(transistors: u32, cards: u32, most: u64, page: &mut Page<ROOM>)
    ensures { Writes (sum_line transistors cards most) page.old page.new }
{
    page.put(b"sum");
    put_each(
        &[transistors as u64, cards as u64, most],
        sheet::decimal_digits,
        page,
    );
}
