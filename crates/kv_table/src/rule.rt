// The rows of the table of rule words, by name.

pub const CLOSE: u32 = 0;

pub const FALSE_L: u32 = 1;

pub const TRUE_R: u32 = 2;

pub const NOT_L: u32 = 3;

pub const NOT_R: u32 = 4;

pub const AND_L: u32 = 5;

pub const OR_R: u32 = 6;

pub const AND_R: u32 = 7;

pub const OR_L: u32 = 8;

pub const IMP_L: u32 = 9;

pub const IMP_R: u32 = 10;

pub const IFF_L: u32 = 11;

pub const IFF_R: u32 = 12;

pub const DROP_L: u32 = 13;

pub const DROP_R: u32 = 14;

pub const CUT: u32 = 15;

pub const ALL_R: u32 = 16;

pub const EX_L: u32 = 17;

pub const ALL_L: u32 = 18;

pub const EX_R: u32 = 19;

pub const REFL: u32 = 20;

pub const SWAP: u32 = 21;

pub const SUBST: u32 = 22;

pub const USE: u32 = 23;

pub const INDUCT: u32 = 24;

pub const SKIP: u32 = 25;

pub const ABORT: u32 = 26;

pub const ASSIGN: u32 = 27;

pub const SEQ: u32 = 28;

pub const COND: u32 = 29;

pub const LOCAL: u32 = 30;

pub const UNWIND: u32 = 31;

pub const CALL: u32 = 32;

pub const INV: u32 = 33;

pub const REC: u32 = 34;

pub const DUAL: u32 = 35;

pub const MONO: u32 = 36;

pub const SIMP: u32 = 37;
