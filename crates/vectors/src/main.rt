// Outside vectors for the currents: rows on standard input, each a record, the kept voltages of its roles and what they
// must give (the script `pack` says how).
// Prints how many agree and how many differ.
#![tactic(auto)]

use branch::{BRANCHES, ROLES};
use refusal::Refusal;
use std::io::Read;
use std::{array, io};

// Where a row has its record, after how many bytes it has; the most that there are; where after them the row has its
// voltages, what overloads first and its currents; the row's bytes.
const RECORD_AT: usize = 4;

const RECORD_MOST: usize = 8 * card::WIDTH;

const VOLTS_AT: usize = RECORD_AT + RECORD_MOST;

const OVER_AT: usize = VOLTS_AT + 4 * ROLES;

const TICKS_AT: usize = OVER_AT + 4;

const ROW: usize = TICKS_AT + 8 * BRANCHES;

// A row's currents are raised by this, so that none is negative.
const TICKS_RAISED: u64 = 1152921504606846976;

// The most rows that are read.
const ROWS: u64 = 1000000;

// The voltage of role k as the row keeps it.
fn kept(row: &[u8], k: usize) -> u32 {
    bytes_le::u32_at(row, VOLTS_AT + 4 * (k % ROLES))
}

// Those of all roles, in microvolts.
fn microvolts(row: &[u8]) -> [i64; ROLES] {
    array::from_fn(|k| volts::give_back(kept(row, k)))
}

// The number that tells which row overloads first, and how.
fn told(row: &[u8]) -> u32 {
    bytes_le::u32_at(row, OVER_AT)
}

// The current of branch k, counted from 0.
fn ticks(row: &[u8], k: usize) -> i64 {
    let x = bytes_le::u64_at(row, TICKS_AT + 8 * (k % BRANCHES));
    whole::difference(x % (2 * TICKS_RAISED), TICKS_RAISED)
}

// The currents are those of the row.
fn same_ticks(row: &[u8], got: [i64; BRANCHES]) -> bool {
    got.iter().enumerate().all(|(k, x)| *x == ticks(row, k))
}

// What overloads first is as the row says, which says 0 where nothing does: the branch, and the kind, 0 for a T and 1 for
// a ratio. The number is 0, as there is no transistor.
fn same_over(row: &[u8], f: Refusal) -> bool {
    let (issue, branch, kind) = match f {
        Refusal::Overload(issue, branch) => (issue, branch, 0),
        Refusal::Injection(issue, branch) => (issue, branch, 1),
        _ => return false,
    };
    told(row) != 0 && issue == 0 && branch == told(row) / 2 && kind == told(row) % 2
}

fn same_reply(row: &[u8], bytes: &[u8]) -> bool {
    match branch::currents(bytes, &microvolts(row)) {
        Ok(got) => told(row) == 0 && same_ticks(row, got),
        Err(f) => same_over(row, f),
    }
}

fn agrees(row: &[u8]) -> bool {
    let n = bytes_le::u32_at(row, 0) as usize;
    if RECORD_MOST < n {
        return false;
    }
    if row.len() < RECORD_AT + n {
        return false;
    }
    same_reply(row, &row[RECORD_AT..RECORD_AT + n])
}

fn report(rt: &HostRuntime, n: u64, what: &str) -> io::Result<()> {
    println!(rt; "{n} {what}")
}

// A row that is cut short, or cannot be read, ends them.
fn main(rt: HostRuntime) -> io::Result<()> {
    let mut rows = rt.stdin();
    let mut good: u64 = 0;
    let mut bad: u64 = 0;
    for done in 0..ROWS {
        let mut row = [0u8; ROW];
        if rows.read_exact(&mut row).is_err() {
            break;
        }
        if agrees(&row) {
            good += 1;
        } else {
            bad += 1;
        }
    }
    report(&rt, good, "agree")?;
    report(&rt, bad, "differ")
}
