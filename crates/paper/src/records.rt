// The cards of the worked cases, as bytes of their records.

// The bytes of a record.
pub(crate) const RECORD: usize = 8 * clip::NARROW;

// The bits of 1 as f64.
const ONE: u64 = 0x3ff0000000000000;

// The words of a record, their lowest bytes first.
fn bytes(words: [u64; clip::NARROW]) -> [u8; RECORD] {
    let mut b = [0u8; RECORD];
    for (part, w) in b.chunks_exact_mut(8).zip(words) {
        part.copy_from_slice(&w.to_le_bytes());
    }
    b
}

// A card with this I_s, I_k, XI_B1, beta_ri and octave; the others are those of the paper's card.
fn card(is: u64, ik: u64, xi: u64, bri: u64, octave: u64) -> [u8; RECORD] {
    bytes([
        ONE,
        is,
        ik,
        ONE,
        xi,
        0,
        ONE,
        bri,
        0,
        0,
        ONE,
        0,
        0,
        0,
        octave,
        0x407f800000000000,
    ])
}

// 16,000,000 nV, and 9,999,999.
const OCTAVE: u64 = 0x416e848000000000;

const LOW_OCTAVE: u64 = 0x416312cfe0000000;

// I_s is 2^-40.
pub(crate) fn paper() -> [u8; RECORD] {
    card(0x3d70000000000000, ONE, 0, ONE, OCTAVE)
}

// I_s and I_k are 2^-38 and beta_ri is 4.
pub(crate) fn five() -> [u8; RECORD] {
    card(
        0x3d90000000000000,
        0x3d90000000000000,
        0,
        0x4010000000000000,
        OCTAVE,
    )
}

// I_s is 8.
pub(crate) fn eight() -> [u8; RECORD] {
    card(0x4020000000000000, ONE, 0, ONE, OCTAVE)
}

pub(crate) fn xi_one() -> [u8; RECORD] {
    card(0x3d70000000000000, ONE, ONE, ONE, OCTAVE)
}

pub(crate) fn is_minus_zero() -> [u8; RECORD] {
    card(0x8000000000000000, ONE, 0, ONE, OCTAVE)
}

// I_s is 0: nothing overloads at any voltage.
pub(crate) fn none() -> [u8; RECORD] {
    card(0, ONE, 0, ONE, OCTAVE)
}

pub(crate) fn low_octave() -> [u8; RECORD] {
    card(0x3d70000000000000, ONE, 0, ONE, LOW_OCTAVE)
}
