// The rows of the table of words of reasons, by name.

pub const CYCLE: u32 = 0;

pub const MISSING: u32 = 1;

pub const KIND: u32 = 2;

pub const BELOW: u32 = 3;

pub const CLASH: u32 = 4;

pub const UNKNOWN: u32 = 5;

pub const ARITY: u32 = 6;

pub const SORT: u32 = 7;

pub const DUPLICATE: u32 = 8;

pub const PROGRAM: u32 = 9;

pub const CONSTRUCTOR: u32 = 10;

pub const PARTIAL: u32 = 11;

pub const PROFILE: u32 = 12;

pub const INJECTIVE: u32 = 13;

pub const LOST: u32 = 14;

pub const BODIES: u32 = 15;

pub const EXPORT: u32 = 16;

pub const ABSENT: u32 = 17;

pub const REACH: u32 = 18;

pub const LIMIT: u32 = 19;

pub const UNIT: u32 = 20;

pub const POSITION: u32 = 21;

pub const SHAPE: u32 = 22;

pub const FRESH: u32 = 23;

pub const CAPTURED: u32 = 24;

pub const LABEL: u32 = 25;

pub const BODY: u32 = 26;

pub const GENERATION: u32 = 27;

pub const LARGE: u32 = 28;

pub const SURPLUS: u32 = 29;
