// Works the cases that the proved table leaves out, and a few that it has. Each line has the case, the value worked and
// the paper's value.
#![tactic(auto)]

ghost use Rattle.board.specs.Promise.{Reached};

mod records; // records.rt: the cards of the cases, as bytes
mod shown; // shown.rt: a line of output

use board::{Answer, Answered, Board};
use branch::BRANCHES;
use records::RECORD;
use refusal::Refusal;
use std::io;

// The reply for a record with the base at v microvolts and every other role at 0.
fn at_base(bytes: [u8; RECORD], v: i64) -> Result<[i64; BRANCHES], Refusal> {
    branch::currents(&bytes, &[0, v, v, 0, 0, 0, 0, 0, 0, 0, 0])
}

// The refusal's number; 0 where there is none.
fn refusal_at(bytes: [u8; RECORD], v: i64) -> i64 {
    match at_base(bytes, v) {
        Ok(_) => 0,
        Err(f) => refusal::number(f) as i64,
    }
}

// Row 5 at v microvolts; 0 where there is a refusal.
fn fifth(bytes: [u8; RECORD], v: i64) -> i64 {
    match at_base(bytes, v) {
        Ok(ticks) => ticks[4],
        Err(_) => 0,
    }
}

// The clip mask; 0 where there is a refusal.
fn mask_of(bytes: [u8; RECORD]) -> i64 {
    match card::clip(&bytes) {
        Ok(clipping) => clipping.mask as i64,
        Err(_) => 0,
    }
}

// An answer as a number: what was issued, a node's ticks, how many are listed or summed, or 0.
fn answer_number(a: Answer) -> i64 {
    match a {
        Answer::Done | Answer::Currents => 0,
        Answer::Node(_, ticks) => ticks,
        Answer::Issue(n) | Answer::Listed(n) | Answer::Summed(n, _, _) => n as i64,
        Answer::Refused(f) => refusal::number(f) as i64,
    }
}

// A node's total.
fn total(b: Board, volts: &[i64; Board::NODES], totals: &[i64; Board::NODES], n: i64) -> i64
    requires { Reached b }
{
    answer_number(b.read_node(volts, totals, n).answer)
}

fn show_totals(
    rt: &HostRuntime,
    b: Board,
    volts: &[i64; Board::NODES],
    totals: &[i64; Board::NODES],
    what: &[u8],
    a: i64,
    c: i64,
    d: i64,
    e: i64,
) -> io::Result<()>
    requires { Reached b }
{
    shown::line(rt, what, b" node 0", total(b, volts, totals, 0), a)?;
    shown::line(rt, what, b" node 1", total(b, volts, totals, 1), c)?;
    shown::line(rt, what, b" node 2", total(b, volts, totals, 2), d)?;
    shown::line(rt, what, b" node 3", total(b, volts, totals, 3), e)
}

// The paper's transistor on nodes 0 to 3.
fn stand(b: Board, volts: &[i64; Board::NODES], totals: &mut [i64; Board::NODES]) -> Answered
    requires { Reached b }
    ensures { Reached result.board }
{
    b.place(volts, totals, 1, [0, 1, 1, 2, 2, 2, 3, -1, -1, -1, -1])
}

// A board with the paper's card, over slices that it clears.
fn begin(volts: &mut [i64; Board::NODES], totals: &mut [i64; Board::NODES]) -> Answered
    ensures { Reached result.board }
{
    let begun = Board::fresh(volts, totals);
    begun.board.load(b"a1", &records::paper())
}

fn move_node(
    b: Board,
    volts: &mut [i64; Board::NODES],
    totals: &mut [i64; Board::NODES],
    node: i64,
    microvolts: i64,
) -> Answered
    requires { Reached b }
    ensures { Reached result.board }
{
    b.move_to(volts, totals, node, microvolts)
}

fn lift(b: Board, volts: &[i64; Board::NODES], totals: &mut [i64; Board::NODES], n: i64) -> Answered
    requires { Reached b }
    ensures { Reached result.board }
{
    b.lift(volts, totals, n)
}

// The transistor lifted, and another placed at the same voltages.
fn stand_again(
    rt: &HostRuntime,
    b: Board,
    volts: &[i64; Board::NODES],
    totals: &mut [i64; Board::NODES],
) -> io::Result<()>
    requires { Reached b }
{
    let gone = lift(b, volts, totals, 2);
    show_totals(rt, gone.board, volts, totals, b"lifted", 0, 0, 0, 0)?;
    let again = stand(gone.board, volts, totals);
    shown::line(rt, b"place again", b"", answer_number(again.answer), 3)?;
    show_totals(
        rt,
        again.board,
        volts,
        totals,
        b"again",
        -2048,
        1024,
        1024,
        0,
    )
}

fn run_board(rt: &HostRuntime) -> io::Result<()> {
    let mut volts = [0i64; Board::NODES];
    let mut totals = [0i64; Board::NODES];
    let loaded = begin(&mut volts, &mut totals);
    shown::line(rt, b"load", b"", answer_number(loaded.answer), 1)?;
    let first = stand(loaded.board, &volts, &mut totals);
    shown::line(rt, b"place", b"", answer_number(first.answer), 2)?;
    let one = move_node(first.board, &mut volts, &mut totals, 1, 16000);
    let two = move_node(one.board, &mut volts, &mut totals, 2, 16000);
    stand_again(rt, two.board, &volts, &mut totals)
}

// A board with two of the paper's transistors, the base of each on the other's emitter, and 2 V at their collectors.
fn stage_on(volts: &mut [i64; Board::NODES], totals: &mut [i64; Board::NODES]) -> Board
    ensures { Reached result }
{
    let loaded = begin(volts, totals);
    let one = loaded
        .board
        .place(volts, totals, 1, [2, 1, 1, 3, 3, 3, 0, -1, -1, -1, -1]);
    let two = one
        .board
        .place(volts, totals, 1, [1, 2, 2, 3, 3, 3, 0, -1, -1, -1, -1]);
    move_node(two.board, volts, totals, 3, 2000000).board
}

// Both bases of the stage lifted together.
fn lift_both(
    rt: &HostRuntime,
    b: Board,
    volts: &mut [i64; Board::NODES],
    totals: &mut [i64; Board::NODES],
) -> io::Result<()>
    requires { Reached b }
{
    let both = b.move_all(volts, totals, &[1, 2000000, 2, 2000000]);
    shown::line(rt, b"both lifted", b"", answer_number(both.answer), 0)
}

// Two of the paper's transistors, the base of each on the other's emitter: which of its nodes can be lifted by 2 V.
fn run_stage(rt: &HostRuntime) -> io::Result<()> {
    let mut volts = [0i64; Board::NODES];
    let mut totals = [0i64; Board::NODES];
    let stage = stage_on(&mut volts, &mut totals);
    let base = move_node(stage, &mut volts, &mut totals, 1, 2000000);
    shown::line(rt, b"node 1 lifted", b"", answer_number(base.answer), 15)?;
    let emitter = move_node(base.board, &mut volts, &mut totals, 2, 2000000);
    shown::line(rt, b"node 2 lifted", b"", answer_number(emitter.answer), 15)?;
    lift_both(rt, emitter.board, &mut volts, &mut totals)
}

// Two transistors listed into a buffer with no room.
fn list_into_none(rt: &HostRuntime, b: Board) -> io::Result<()>
    requires { Reached b }
{
    let mut none = [7u32; 0];
    let r = b.list_node(3, &mut none);
    shown::line(rt, b"list of two into 0", b"", answer_number(r.answer), 5)
}

// Into one a number short.
fn list_into_one(rt: &HostRuntime, b: Board) -> io::Result<()>
    requires { Reached b }
{
    let mut short = [7u32; 1];
    let r = b.list_node(3, &mut short);
    shown::line(rt, b"list of two into 1", b"", answer_number(r.answer), 5)?;
    shown::line(rt, b"list of two into 1", b" left", wide(short[0]), 7)
}

// Into one as long as the list.
fn list_into_two(rt: &HostRuntime, b: Board) -> io::Result<()>
    requires { Reached b }
{
    let mut exact = [7u32; 2];
    let r = b.list_node(3, &mut exact);
    shown::line(rt, b"list of two into 2", b"", answer_number(r.answer), 2)?;
    shown::line(rt, b"list of two into 2", b" first", wide(exact[0]), 2)?;
    shown::line(rt, b"list of two into 2", b" second", wide(exact[1]), 3)
}

// Into a longer one, of a node of the board or of none.
fn list_into_three(rt: &HostRuntime, b: Board, node: i64, count: i64, second: i64) -> io::Result<()>
    requires { Reached b }
{
    let mut long = [7u32; 3];
    let r = b.list_node(node, &mut long);
    shown::line(rt, b"list into 3", b"", answer_number(r.answer), count)?;
    shown::line(rt, b"list into 3", b" second", wide(long[1]), second)?;
    shown::line(rt, b"list into 3", b" left", wide(long[2]), 7)
}

// Who stands on node 3 of the stage, listed into buffers of several lengths.
fn run_lists(rt: &HostRuntime) -> io::Result<()> {
    let mut volts = [0i64; Board::NODES];
    let mut totals = [0i64; Board::NODES];
    let stage = stage_on(&mut volts, &mut totals);
    list_into_none(rt, stage)?;
    list_into_one(rt, stage)?;
    list_into_two(rt, stage)?;
    list_into_three(rt, stage, 3, 2, 3)?;
    list_into_three(rt, stage, 32, 13, 7)
}

fn wide(x: u32) -> i64 {
    x as i64
}

// Three entries of the table.
fn run_table(rt: &HostRuntime) -> io::Result<()> {
    let t = octave::table();
    shown::line(rt, b"t_0", b"", wide(t[0]), 1073741824)?;
    shown::line(rt, b"t_128", b"", wide(t[128]), 1518500249)?;
    shown::line(rt, b"t_256", b"", wide(t[256]), 2147483648)
}

// The paper's octave, in nanovolts.
const OCTAVE: u64 = 16000000;

// The position of -1 microvolt for it.
fn position() -> i64 {
    let o = octave::reciprocal_of(OCTAVE);
    let u = volts::across(volts::ZERO - 1, volts::ZERO);
    whole::difference(octave::place(u, o), octave::BIAS * octave::PARTS)
}

// Two clipped records, and the ends of what a voltage and an octave may be.
fn run_ends(rt: &HostRuntime) -> io::Result<()> {
    shown::line(rt, b"XI_B1 = 1 mask", b"", mask_of(records::xi_one()), 0)?;
    shown::line(
        rt,
        b"I_s = -0 mask",
        b"",
        mask_of(records::is_minus_zero()),
        0,
    )?;
    shown::line(
        rt,
        b"2500000 uV",
        b"",
        refusal_at(records::none(), 2500000),
        0,
    )?;
    shown::line(
        rt,
        b"2500001 uV",
        b"",
        refusal_at(records::none(), 2500001),
        13,
    )?;
    shown::line(
        rt,
        b"octave 9999999",
        b"",
        refusal_at(records::low_octave(), 0),
        9,
    )
}

fn main(rt: HostRuntime) -> io::Result<()> {
    run_table(&rt)?;
    shown::line(&rt, b"position at -1 uV", b"", position(), -5)?;
    shown::line(&rt, b"branch 5 at 0 uV", b"", fifth(records::five(), 0), 0)?;
    shown::line(
        &rt,
        b"sN = 8 A at 0 uV",
        b"",
        refusal_at(records::eight(), 0),
        0,
    )?;
    run_ends(&rt)?;
    run_board(&rt)?;
    run_stage(&rt)?;
    run_lists(&rt)
}
