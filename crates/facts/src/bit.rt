// The bit of each fact in a byte of them, by what it adds.

pub const SVE: u8 = 1;

pub const SVE2: u8 = 2;

pub const SVE2P1: u8 = 4;

pub const SME: u8 = 8;

pub const SME2P1: u8 = 16;
