// The rows of the table of words of states, by name.

pub const ILL: u32 = 0;

pub const BROKEN: u32 = 1;

pub const OPEN: u32 = 2;

pub const PROVED: u32 = 3;

pub const WAITING: u32 = 4;

pub const CYCLIC: u32 = 5;

pub const IDLE: u32 = 6;

pub const OK: u32 = 7;

pub const BAD: u32 = 8;

pub const REFINED: u32 = 9;

pub const UNREFINED: u32 = 10;
