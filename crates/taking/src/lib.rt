// A card taken in, on a board's arrays lent one by one: the tests come first and the writing last, so that a refusal
// leaves them as they were.
#![tactic(auto)]

ghost use Rattle.std.specs.Prelude.{◌≡◌};
ghost use Rattle.model.specs.Board.{Board};
ghost use Rattle.model.specs.Answering.{answer_of};
ghost use Rattle.model.specs.Model.{loaded_of};
ghost use Rattle.holding.specs.inner.Lent.{CardArrays, LeavesCards};
ghost use Rattle.taking.specs.inner.Loading.{loading};

use card::WorkedCard;
use deck::{ALL_NUMBERS, ALL_POWERS, ALL_SWITCHES, ALL_TICKS};
use given::ISSUES;
pub use holding;
use model::Answer;
use places::{ALL_NAMES, CARDS};
use refusal::Refusal;

// A card that may be loaded: the free place for it, and the card worked.
#[derive(Clone, Copy)]
struct Loading {
    place: usize,
    worked: WorkedCard,
}

// Loading's tests: 1, 2, 6, 7, 8, 19, 9, 10, 11, 17.
fn may_load(held: &[u32; CARDS], next: u32, name: &[u8], bytes: &[u8]) -> Result<Loading, Refusal>
    ensures { result ≡ loading held.now next name.now bytes.now }
{
    if !card::right_length(bytes) {
        return Err(Refusal::Malformed);
    }
    if !name::is_asked(name) {
        return Err(Refusal::BadName);
    }
    let worked = card::judge(bytes)?;
    let Some(place) = places::find(held, 0) else {
        return Err(Refusal::NoRoom);
    };
    if ISSUES < next {
        return Err(Refusal::NumbersUsedUp);
    }
    Ok(Loading { place, worked })
}

// A card under a name, with the next issue number.
pub fn load(
    numbers: &mut [u32; ALL_NUMBERS],
    powers: &mut [u16; ALL_POWERS],
    ticks: &mut [u64; ALL_TICKS],
    switches: &mut [bool; ALL_SWITCHES],
    names: &mut [u8; ALL_NAMES],
    held: &mut [u32; CARDS],
    next: &mut u32,
    name: &[u8],
    bytes: &[u8],
) -> Result<Answer, Refusal>
    ensures { (b : Board) → CardArrays b numbers.old powers.old ticks.old
        switches.old names.old held.old → next.old ≡ b.next →
        LeavesCards (loaded_of b name.now bytes.now) (answer_of result) numbers.new powers.new
        ticks.new switches.new names.new held.new next.new }
{
    let issue = *next;
    let loading = may_load(held, issue, name, bytes)?;
    let own = name::pad(name);
    let ready = ready::prepare(loading.worked);
    holding::hold(
        numbers,
        powers,
        ticks,
        switches,
        names,
        held,
        loading.place,
        issue,
        &own,
        ready,
    );
    *next = issue + 1;
    Ok(Answer::Issue(issue))
}
