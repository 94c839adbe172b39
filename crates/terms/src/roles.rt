// The roles by their numbers.

pub const E1: usize = 0;

pub const B1: usize = 1;

pub const B2: usize = 2;

pub const C1: usize = 3;

pub const C2: usize = 4;

pub const C4: usize = 5;

pub const S: usize = 6;

pub const E: usize = 7;

pub const B: usize = 8;

pub const C: usize = 9;

pub const C3: usize = 10;
