// The rows of the table of command words, by name.

pub const ADD: u32 = 0;

pub const PUT: u32 = 1;

pub const DROP: u32 = 2;

pub const THEOREM: u32 = 3;

pub const CHANGE: u32 = 4;

pub const FORGET: u32 = 5;

pub const PROOF: u32 = 6;

pub const UNPROOF: u32 = 7;

pub const PRUNE: u32 = 8;

pub const STATUS: u32 = 9;

pub const STATE: u32 = 10;

pub const GOALS: u32 = 11;

pub const NEEDS: u32 = 12;

pub const ABOVE: u32 = 13;

pub const GRAPH: u32 = 14;

pub const FLAT: u32 = 15;

pub const OBLIGATIONS: u32 = 16;

pub const TEXT: u32 = 17;

pub const SEAL: u32 = 18;

pub const SAVE: u32 = 19;
