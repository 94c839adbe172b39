// The ways in which the desk turns a call away. `told`, in specs/, gives each its number and the values that go with
// it.
#![tactic(auto)]

ghost use Rattle.std.specs.Prelude.{◌≡◌};
ghost use Rattle.refusal.specs.Told.{number_of};

#[derive(Clone, Copy, Debug, PartialEq, Eq)]
pub enum Refusal {
    // bytes, names or words of a wrong shape: length, version, count or offset
    Malformed,
    // a name that is none
    BadName,
    // two cards of one name
    NameTwice,
    // no card of that name
    NameNotHeld,
    // a lent buffer too short for what it is to hold
    ShortOutput,
    // an infinity, or no number, among a card's numbers
    NotFinite,
    // LEVEL is another
    WrongLevel,
    // EXSUB is no switch
    BadExsub,
    // an octave that is no whole number of nanovolts, or out of range
    BadOctave,
    // a worked value out of reach
    OutOfReach,
    // no room of the kind asked for
    NoRoom,
    // no such card, or no such transistor
    Unknown,
    // a node or a voltage outside its range
    OutOfRange,
    // C4 apart from C1 though nothing lies between them
    SplitCollector,
    // more current than the desk counts: the transistor's number, and the branch that has a T too large
    Overload(u32, u32),
    // a card with a transistor standing on it
    CardInUse,
    // every issue number has been given
    NumbersUsedUp,
    // more injection than the desk counts: the transistor's number, and the branch that has a ratio too large
    Injection(u32, u32),
    // I_CSs is below zero
    NegativeIcss,
    // a key of a model line that is none, or stands twice
    BadKey,
    // a word of a model line that is no number of its form, or a number that has no such form
    BadNumber,
    // a key that must be given is missing
    KeyMissing,
    // a line that is no model line in any other way
    BadLine,
}

pub fn number(f: Refusal) -> u32
    ensures { result ≡ number_of f }
{
    match f {
        Refusal::Malformed => 1,
        Refusal::BadName => 2,
        Refusal::NameTwice => 3,
        Refusal::NameNotHeld => 4,
        Refusal::ShortOutput => 5,
        Refusal::NotFinite => 6,
        Refusal::WrongLevel => 7,
        Refusal::BadExsub => 8,
        Refusal::BadOctave => 9,
        Refusal::OutOfReach => 10,
        Refusal::NoRoom => 11,
        Refusal::Unknown => 12,
        Refusal::OutOfRange => 13,
        Refusal::SplitCollector => 14,
        Refusal::Overload(_, _) => 15,
        Refusal::CardInUse => 16,
        Refusal::NumbersUsedUp => 17,
        Refusal::Injection(_, _) => 18,
        Refusal::NegativeIcss => 19,
        Refusal::BadKey => 20,
        Refusal::BadNumber => 21,
        Refusal::KeyMissing => 22,
        Refusal::BadLine => 23,
    }
}
