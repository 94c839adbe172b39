// A name looked up among the cards held, on a board's arrays lent one by one.
#![tactic(auto)]

ghost use Rattle.std.specs.Prelude.{◌≡◌};
ghost use Rattle.model.specs.Board.{Board};
ghost use Rattle.model.specs.Answering.{answer_of};
ghost use Rattle.model.specs.Model.{looked_of};

use model::Answer;
use places::{ALL_NAMES, CARDS};
use refusal::Refusal;

// The highest issue number among the cards of a name: 2, 4.
pub fn look_up(held: &[u32; CARDS], names: &[u8; ALL_NAMES], name: &[u8]) -> Result<Answer, Refusal>
    ensures { (b : Board) → held.now ≡ b.held → names.now ≡ b.names →
        answer_of result ≡ (looked_of b name.now).answer }
{
    if !name::is_asked(name) {
        return Err(Refusal::BadName);
    }
    let asked = name::pad(name);
    let Some(issue) = newest::highest(held, names, &asked) else {
        return Err(Refusal::NameNotHeld);
    };
    Ok(Answer::Issue(issue))
}
