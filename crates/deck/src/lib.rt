// The cards' numbers as flat arrays: each place has a stretch of every array. `laying` writes them and `dealing` reads
// them.
#![tactic(auto)]

ghost use Rattle.std.specs.Prelude.{◌≡◌, ◌≤◌, ◌+◌, ◌*◌, length};
ghost use Rattle.deck.specs.Stretch.{stretch, written};

pub use rows::terms;

// The places.
pub const CARDS: usize = 16;

// How much of each array a place has, and how long the arrays are.
pub const NUMBERS: usize = 30;

pub const POWERS: usize = 15;

pub const TICKS: usize = 12;

pub const SWITCHES: usize = 5;

// Which of a card's switches say that R_Cbli is 0, that R_Cblx is, and that the card has series resistors.
pub const RCBLI_ZERO: usize = 1;

pub const RCBLX_ZERO: usize = 3;

pub const WIDE: usize = 4;

pub const ALL_NUMBERS: usize = NUMBERS * CARDS;

pub const ALL_POWERS: usize = POWERS * CARDS;

pub const ALL_TICKS: usize = TICKS * CARDS;

pub const ALL_SWITCHES: usize = SWITCHES * CARDS;

// The stretch of a place in a flat array that has N elements for each place.
pub fn stretch_at<T: Copy, const N: usize>(all: &[T], i: usize) -> [T; N]
    requires { N * i + N ≤ length all.now }
    ensures { (d : _) → result ≡ stretch d all.now (N * i) N }
{
    *all[N * i..N * i + N].as_array().unwrap()
}

// Writes it.
pub fn put_stretch<T: Copy, const N: usize>(all: &mut [T], i: usize, own: &[T; N])
    requires { N * i + N ≤ length all.old }
    ensures { (d : _) → all.new ≡ written d all.old (N * i) own.now N }
{
    all[N * i..N * i + N].copy_from_slice(own);
}
