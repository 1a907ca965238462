// The lowest digit of each field of a word.

pub const SIZE: u32 = 22;

pub const SOURCE: u32 = 5;

pub const DESTINATION: u32 = 0;

pub const GOVERNING: u32 = 10;

pub const SECOND: u32 = 16;

pub const Q: u32 = 30;

pub const PATTERN: u32 = 5;
