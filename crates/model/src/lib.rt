// The board's model, definitions and what holds of them: what each call answers and changes. No code but the answers.
#![tactic(auto)]

ghost use Rattle.std.specs.Prelude.{◌≡◌};
ghost use Rattle.model.specs.Answering.{answer_of};

use refusal::Refusal;

#[derive(Clone, Copy)]
pub enum Answer {
    Issue(u32),
    Done,
    Node(i64, i64),
    // those of a transistor, which stand beside the answer: an enum holds no array
    Currents,
    // how many transistors were listed in the buffer that was lent for them
    Listed(u32),
    // a node's transistors, their cards, and the largest size of a branch there
    Summed(u32, u32, u64),
    Refused(Refusal),
}

// What a call gives, or its refusal, as one answer.
pub fn answer_of(given: Result<Answer, Refusal>) -> Answer
    ensures { result ≡ answer_of given }
{
    match given {
        Ok(answer) => answer,
        Err(refusal) => Answer::Refused(refusal),
    }
}
