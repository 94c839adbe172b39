// A card held and given back, on a board's arrays lent one by one: giving back tests first and writes last, so that a
// refusal leaves them as they were.
#![tactic(auto)]

ghost use Rattle.std.specs.Prelude.{◌≡◌, ◌<◌};
ghost use Rattle.places.specs.Counts.{cards_most};
ghost use Rattle.model.specs.Board.{Board};
ghost use Rattle.model.specs.Answering.{answer_of};
ghost use Rattle.model.specs.Model.{withdrawn_of};
ghost use Rattle.holding.specs.inner.Lent.{CardArrays, LeavesCards, Holds, card_of};

use deck::{ALL_NUMBERS, ALL_POWERS, ALL_SWITCHES, ALL_TICKS};
use model::Answer;
use places::{ALL_NAMES, CARDS, TRANSISTORS};
use refusal::Refusal;
use terms::Ready;

// A card written at place i: what it is made ready to, its name and its issue number.
pub fn hold(
    numbers: &mut [u32; ALL_NUMBERS],
    powers: &mut [u16; ALL_POWERS],
    ticks: &mut [u64; ALL_TICKS],
    switches: &mut [bool; ALL_SWITCHES],
    names: &mut [u8; ALL_NAMES],
    held: &mut [u32; CARDS],
    i: usize,
    issue: u32,
    own: &[u8; name::LENGTH],
    ready: Ready,
)
    requires { i < cards_most }
    ensures { Holds i (card_of issue own.now ready) numbers.old powers.old
        ticks.old switches.old names.old held.old numbers.new
        powers.new ticks.new switches.new names.new held.new }
{
    laying::put_ready(numbers, powers, ticks, switches, i, ready);
    sets::put_name(names, i, own);
    held[i] = issue;
}

// A card given back, by its issue number: 12, 16.
pub fn withdraw(
    numbers: &mut [u32; ALL_NUMBERS],
    powers: &mut [u16; ALL_POWERS],
    ticks: &mut [u64; ALL_TICKS],
    switches: &mut [bool; ALL_SWITCHES],
    names: &mut [u8; ALL_NAMES],
    held: &mut [u32; CARDS],
    issues: &[u32; TRANSISTORS],
    cards: &[u32; TRANSISTORS],
    card: i64,
) -> Result<Answer, Refusal>
    ensures { (b : Board) → CardArrays b numbers.old powers.old ticks.old
        switches.old names.old held.old → issues.now ≡ b.issues →
        cards.now ≡ b.cards → LeavesCards (withdrawn_of b card) (answer_of result) numbers.new powers.new
        ticks.new switches.new names.new held.new b.next }
{
    let n = given::issue_of(card);
    let Some(i) = places::place_of(held, n) else {
        return Err(Refusal::Unknown);
    };
    if places::any_on(issues, cards, n) {
        return Err(Refusal::CardInUse);
    }
    let gone: u32 = 0;
    let blank = [0u8; name::LENGTH];
    let none = ready::no_ready();
    hold(
        numbers, powers, ticks, switches, names, held, i, gone, &blank, none,
    );
    Ok(Answer::Done)
}
