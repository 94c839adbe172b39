// What is said of the board's answers, put on the page.
#![tactic(auto)]

ghost use Rattle.std.specs.Prelude.{◌≡◌};
ghost use Rattle.page.specs.Page.{Writes};
ghost use Rattle.telling.specs.Said.{node_number, issued_to, change_done, done_to, said_of, listed_of, row_of};

use answers::{Answer, answer_line};
use asks::{Call, Change};
use page::{Page, ROOM};
use places::TRANSISTORS;
use saying::put_refused;
use terms::BRANCHES;

// How many nodes a board has.
const NODES: u32 = 32;

// The number of a node that the board has, and 32 for every other.
pub fn node_number(node: i64) -> u32
    ensures { result ≡ node_number node }
{
    u32::try_from(node).unwrap_or(NODES).min(NODES)
}

// To a call that gives a number: that of a card, or of a transistor.
fn issued(call: Call, i: u32) -> Answer
    ensures { result ≡ issued_to call i }
{
    match call {
        Call::Change(_) => Answer::Transistor(i),
        Call::Card(_) | Call::Moves | Call::Read(_) => Answer::Card(i),
    }
}

// To a call that gives nothing: what was done.
fn changed(what: Change) -> Answer
    ensures { result ≡ change_done what }
{
    match what {
        Change::Place | Change::Move => Answer::Moved,
        Change::Lift => Answer::Lifted,
        Change::Withdraw => Answer::Withdrawn,
    }
}

fn done(call: Call) -> Answer
    ensures { result ≡ done_to call }
{
    match call {
        Call::Change(what) => changed(what),
        Call::Card(_) | Call::Moves | Call::Read(_) => Answer::Moved,
    }
}

// To a command by its call and its first number; the currents stand beside the answer. Who is listed is told apart.
pub fn tell(
    call: Call,
    number: i64,
    answer: model::Answer,
    ticks: &[i64; BRANCHES],
    page: &mut Page<ROOM>,
)
    ensures { Writes (said_of call number answer ticks.now) page.old page.new }
{
    match answer {
        model::Answer::Issue(i) => answer_line(issued(call, i), page),
        model::Answer::Done => answer_line(done(call), page),
        model::Answer::Node(v, t) => answer_line(Answer::Reading(node_number(number), v, t), page),
        model::Answer::Currents => spaced::currents_line(ticks, page),
        model::Answer::Listed(_) => {}
        model::Answer::Summed(t, c, most) => spaced::sum_line(t, c, most, page),
        model::Answer::Refused(f) => put_refused(f, page),
    }
}

// Who names a node: the first of these issue numbers.
pub fn put_listed(answer: model::Answer, issues: &[u32; TRANSISTORS], page: &mut Page<ROOM>)
    ensures { Writes (listed_of answer issues.now) page.old page.new }
{
    match answer {
        model::Answer::Listed(n) => spaced::who_line(&issues[..TRANSISTORS.min(n as usize)], page),
        model::Answer::Refused(f) => put_refused(f, page),
        _ => {}
    }
}

// A node's line of the sheet.
pub fn put_row(node: u32, answer: model::Answer, page: &mut Page<ROOM>)
    ensures { Writes (row_of node answer) page.old page.new }
{
    if let model::Answer::Node(v, t) = answer {
        texts::put_text(sheet::sheet_line(node, v, t), page);
    }
}
