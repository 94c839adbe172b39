// The parameters' numbers: the place of each among a record's words, and in the clip mask.
// A record of version 1 has the first sixteen.
pub const MULT: usize = 0;

pub const IS: usize = 1;

pub const IK: usize = 2;

pub const BF: usize = 3;

pub const XIBI: usize = 4;

pub const IBF: usize = 5;

pub const MLF: usize = 6;

pub const BRI: usize = 7;

pub const ISS: usize = 8;

pub const ICSS: usize = 9;

pub const IKS: usize = 10;

pub const RCBLX: usize = 11;

pub const RCBLI: usize = 12;

pub const EXSUB: usize = 13;

pub const OCTAVE: usize = 14;

pub const LEVEL: usize = 15;

pub const IBR: usize = 16;

pub const VLR: usize = 17;

pub const RE: usize = 18;

pub const RBC: usize = 19;

pub const RCC: usize = 20;

pub const POLARITY: usize = 21;

// The first of the two spare words.
pub const SPARE: usize = 22;
