// Whom a command asks, and which of its numbers it hands over.
#![tactic(auto)]

ghost use Rattle.std.specs.Prelude.{◌≡◌, take};
ghost use Rattle.asks.specs.Asks.{asks_of};
ghost use Rattle.asks.specs.Numbers.{nodes_in};

use script::{MOST_WORDS, Verb};
use terms::ROLES;

// The roles of a transistor without series resistors.
const FEW_ROLES: usize = 7;

// About a card, which the line names or is.
#[derive(Clone, Copy)]
pub enum OfCard {
    Load,
    Record,
    Line,
    Lookup,
}

// To change what stands, by numbers.
#[derive(Clone, Copy)]
pub enum Change {
    Place,
    Move,
    Lift,
    Withdraw,
}

// To read, by one number.
#[derive(Clone, Copy)]
pub enum Reads {
    Node,
    Currents,
    Sum,
}

// A call of the board.
#[derive(Clone, Copy)]
pub enum Call {
    Card(OfCard),
    Change(Change),
    Moves,
    Read(Reads),
}

// What asks the library held, or nobody.
#[derive(Clone, Copy)]
pub enum Apart {
    Nothing,
    TooLong,
    Error,
    Find,
    Clip,
    Mend,
    Model,
}

// Whom a command asks: the board, by a call, for a list or for the sheet, nobody but its two slices, or not even these.
#[derive(Clone, Copy)]
pub enum Asks {
    Board(Call),
    Who,
    Sheet,
    Slices,
    Apart(Apart),
}

// By its verb. A library comes from a file, and asks nothing here.
pub fn asked_by(v: Verb) -> Asks
    ensures { result ≡ asks_of v }
{
    match v {
        Verb::Load => Asks::Board(Call::Card(OfCard::Load)),
        Verb::Record => Asks::Board(Call::Card(OfCard::Record)),
        Verb::ModelLine => Asks::Board(Call::Card(OfCard::Line)),
        Verb::Lookup => Asks::Board(Call::Card(OfCard::Lookup)),
        Verb::Place => Asks::Board(Call::Change(Change::Place)),
        Verb::Move => Asks::Board(Call::Change(Change::Move)),
        Verb::Lift => Asks::Board(Call::Change(Change::Lift)),
        Verb::Withdraw => Asks::Board(Call::Change(Change::Withdraw)),
        Verb::Moves => Asks::Board(Call::Moves),
        Verb::Node => Asks::Board(Call::Read(Reads::Node)),
        Verb::Currents => Asks::Board(Call::Read(Reads::Currents)),
        Verb::Sum => Asks::Board(Call::Read(Reads::Sum)),
        Verb::Who => Asks::Who,
        Verb::Sheet => Asks::Sheet,
        Verb::Poke => Asks::Slices,
        Verb::Nothing => Asks::Apart(Apart::Nothing),
        Verb::TooLong => Asks::Apart(Apart::TooLong),
        Verb::Error => Asks::Apart(Apart::Error),
        Verb::Find => Asks::Apart(Apart::Find),
        Verb::Clip => Asks::Apart(Apart::Clip),
        Verb::Mend => Asks::Apart(Apart::Mend),
        Verb::Model => Asks::Apart(Apart::Model),
        Verb::Library => Asks::Apart(Apart::Nothing),
    }
}

// The first n of the numbers; all of them where there are not so many.
pub fn first(numbers: &[i64], n: usize) -> &[i64]
    ensures { result.now ≡ take n numbers.now }
{
    &numbers[..n.min(numbers.len())]
}

// The nodes that a placing names, after its card's number: of all roles where its line has the most words, else of
// seven.
pub fn nodes_in(numbers: &[i64], words: usize) -> &[i64]
    ensures { result.now ≡ nodes_in numbers.now words }
{
    let nodes = numbers.get(1..).unwrap_or_default();
    let roles = if words == MOST_WORDS {
        ROLES
    } else {
        FEW_ROLES
    };
    first(nodes, roles)
}
