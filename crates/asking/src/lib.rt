// The board asked by a command: it gives the next one beside its answer. Voltages and totals stand in two slices that
// are lent to it.
#![tactic(auto)]

ghost use Rattle.std.specs.Prelude.{◌≡◌};
ghost use Rattle.lending.specs.Rest.{bare};
ghost use Rattle.lending.specs.Lending.{moved_lent};
ghost use Rattle.fetching.specs.OfBoard.Promise.{model_of, state_in, given_as, handed_as, Reached};
ghost use Rattle.asks.specs.Numbers.{pairs_in};
ghost use Rattle.asking.specs.Asked.{asked_card, changed_by, read_by, asked_of};

use asks::{Call, Change, OfCard, Reads};
pub use fetching::board;
use fetching::board::{Answered, Board};
use script::{Command, MOST_BYTES, MOST_NUMBERS, Series};

// About a card; the bytes that the line's hex digits spell begin `spelled`.
fn ask_card(
    board: Board,
    what: OfCard,
    name: &[u8],
    line: &[u8],
    bytes: &[u8],
    library: &[u8],
) -> Answered
    requires { Reached board }
    ensures value { result ≡ given_as (asked_card (bare (model_of board)) what name.now line.now
        bytes.now library.now) }
    ensures reached { Reached result.board }
{
    match what {
        OfCard::Load => fetching::load_named(board, name, library),
        OfCard::Record => board.load(name, bytes),
        OfCard::Line => fetching::load_line(board, trimming::trimmed(line)),
        OfCard::Lookup => board.look_up(name),
    }
}

// To change what stands, by a line of so many words.
fn ask_change(
    board: Board,
    volts: &mut [i64],
    totals: &mut [i64],
    what: Change,
    v: [i64; MOST_NUMBERS],
    words: usize,
) -> Answered
    requires { Reached board }
    ensures value { result
        ≡ handed_as (changed_by (state_in board volts.old totals.old) what v words) }
    ensures reached { Reached result.board }
    ensures volts_after { volts.new
        ≡ (changed_by (state_in board volts.old totals.old) what v words).state.volts }
    ensures totals_after { totals.new
        ≡ (changed_by (state_in board volts.old totals.old) what v words).state.totals }
{
    match what {
        Change::Place => board.place(
            volts,
            totals,
            v[0],
            roles::roles_of(asks::nodes_in(&v, words)),
        ),
        Change::Move => board.move_all(volts, totals, asks::first(&v, 2)),
        Change::Lift => board.lift(volts, totals, v[0]),
        Change::Withdraw => board.withdraw(v[0]),
    }
}

// To read.
fn ask_reading(board: Board, volts: &[i64], totals: &[i64], what: Reads, number: i64) -> Answered
    requires { Reached board }
    ensures value { result ≡ handed_as (read_by (state_in board volts.now totals.now) what number) }
    ensures reached { Reached result.board }
{
    match what {
        Reads::Node => board.read_node(volts, totals, number),
        Reads::Currents => board.read_currents(number),
        Reads::Sum => board.sum_up(number),
    }
}

// Nodes moved together, by as many numbers as the line has.
fn ask_moves(board: Board, volts: &mut [i64], totals: &mut [i64], list: Option<Series>) -> Answered
    requires { Reached board }
    ensures value { result
        ≡ handed_as (moved_lent (state_in board volts.old totals.old) (pairs_in list)) }
    ensures reached { Reached result.board }
    ensures volts_after { volts.new
        ≡ (moved_lent (state_in board volts.old totals.old) (pairs_in list)).state.volts }
    ensures totals_after { totals.new
        ≡ (moved_lent (state_in board volts.old totals.old) (pairs_in list)).state.totals }
{
    match list {
        Some(l) => board.move_all(volts, totals, asks::first(&l.numbers, l.count)),
        None => board.move_all(volts, totals, &[]),
    }
}

// A call of the board; the bytes that the line's hex digits spell begin `spelled`.
pub fn ask(
    board: Board,
    volts: &mut [i64],
    totals: &mut [i64],
    call: Call,
    c: Command,
    line: &[u8],
    spelled: &[u8; MOST_BYTES],
    library: &[u8],
) -> Answered
    requires { Reached board }
    ensures value { result ≡ handed_as (asked_of (state_in board volts.old totals.old) call c
        line.now spelled.now library.now) }
    ensures reached { Reached result.board }
    ensures volts_after { volts.new ≡ (asked_of (state_in board volts.old totals.old) call c
        line.now spelled.now library.now).state.volts }
    ensures totals_after { totals.new ≡ (asked_of (state_in board volts.old totals.old) call c
        line.now spelled.now library.now).state.totals }
{
    let words = c.words;
    let v = c.numbers;
    match call {
        Call::Card(what) => {
            let name = script::word(line, words, 1);
            ask_card(
                board,
                what,
                name,
                line,
                saying::part(spelled, 0, c.bytes),
                library,
            )
        }
        Call::Change(what) => ask_change(board, volts, totals, what, v, words.count),
        Call::Moves => ask_moves(board, volts, totals, c.list),
        Call::Read(what) => ask_reading(board, volts, totals, what, v[0]),
    }
}
