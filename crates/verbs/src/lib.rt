// The commands: the word of each, and what a line of it has to be.
#![tactic(auto)]

ghost use Rattle.std.specs.Prelude.{◌≡◌};
ghost use Rattle.verbs.specs.Table.{row_named};

#[derive(Clone, Copy)]
pub enum Verb {
    Library,
    Find,
    Clip,
    Load,
    Record,
    Place,
    Move,
    Moves,
    Lift,
    Withdraw,
    Lookup,
    Node,
    Sheet,
    Currents,
    Who,
    Sum,
    Mend,
    Poke,
    // a model line, whose card is loaded
    ModelLine,
    Model,
    // a line that is passed over
    Nothing,
    TooLong,
    // a line that is no command
    Error,
}

// What the words of a command have to be, beside the first: any, or numbers, as many as make so many words in all, or
// one of two; pairs of numbers, as many as there are; a name and hex digits; or whatever they are.
#[derive(Clone, Copy)]
pub enum Wants {
    Texts(usize),
    Numbers(usize),
    Either(usize, usize),
    Pairs,
    NameAndHex,
    Anything,
}

#[derive(Clone, Copy)]
pub struct Row {
    pub verb: Verb,
    pub wants: Wants,
}

// The words of the commands, each with its row.
const TABLE: [(&[u8], Verb, Wants); 20] = [
    (b"library", Verb::Library, Wants::Texts(2)),
    (b"find", Verb::Find, Wants::Texts(2)),
    (b"clip", Verb::Clip, Wants::Texts(2)),
    (b"load", Verb::Load, Wants::Texts(2)),
    (b"record", Verb::Record, Wants::NameAndHex),
    (b"place", Verb::Place, Wants::Either(9, 13)),
    (b"move", Verb::Move, Wants::Numbers(3)),
    (b"moves", Verb::Moves, Wants::Pairs),
    (b"lift", Verb::Lift, Wants::Numbers(2)),
    (b"withdraw", Verb::Withdraw, Wants::Numbers(2)),
    (b"lookup", Verb::Lookup, Wants::Texts(2)),
    (b"node", Verb::Node, Wants::Numbers(2)),
    (b"sheet", Verb::Sheet, Wants::Texts(1)),
    (b"currents", Verb::Currents, Wants::Numbers(2)),
    (b"who", Verb::Who, Wants::Numbers(2)),
    (b"sum", Verb::Sum, Wants::Numbers(2)),
    (b"mend", Verb::Mend, Wants::Texts(1)),
    (b"poke", Verb::Poke, Wants::Numbers(4)),
    (b".model", Verb::ModelLine, Wants::Anything),
    (b"model", Verb::Model, Wants::Texts(2)),
];

// The row that a word names.
pub fn named(word: &[u8]) -> Row
    ensures { result ≡ row_named word.now }
{
    for (text, verb, wants) in TABLE.iter() {
        if word == *text {
            return Row {
                verb: *verb,
                wants: *wants,
            };
        }
    }
    Row {
        verb: Verb::Error,
        wants: Wants::Texts(0),
    }
}
