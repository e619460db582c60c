// The rows of the table of keywords, by name.

pub const PROJECT: u32 = 0;

pub const UNIT: u32 = 1;

pub const BASIC: u32 = 2;

pub const ENRICH: u32 = 3;

pub const UNION: u32 = 4;

pub const RENAME: u32 = 5;

pub const PARAM: u32 = 6;

pub const USING: u32 = 7;

pub const ACTUALIZE: u32 = 8;

pub const MODULE: u32 = 9;

pub const EXPORT: u32 = 10;

pub const IMPORT: u32 = 11;

pub const BY: u32 = 12;

pub const WITH: u32 = 13;

pub const END: u32 = 14;

pub const SORT: u32 = 15;

pub const DATA: u32 = 16;

pub const FUN: u32 = 17;

pub const PRED: u32 = 18;

pub const PROC: u32 = 19;

pub const GENERATED: u32 = 20;

pub const AXIOM: u32 = 21;

pub const THEOREM: u32 = 22;

pub const PROOF: u32 = 23;

pub const QED: u32 = 24;

pub const SIMP: u32 = 25;

pub const RESTRICT: u32 = 26;

pub const EQUATING: u32 = 27;

pub const MEASURE: u32 = 28;

pub const BELOW: u32 = 29;

pub const FROM: u32 = 30;

pub const TRUE: u32 = 31;

pub const FALSE: u32 = 32;

pub const NOT: u32 = 33;

pub const AND: u32 = 34;

pub const OR: u32 = 35;

pub const ALL: u32 = 36;

pub const EX: u32 = 37;

pub const SKIP: u32 = 38;

pub const ABORT: u32 = 39;

pub const IF: u32 = 40;

pub const THEN: u32 = 41;

pub const ELSE: u32 = 42;

pub const WHILE: u32 = 43;

pub const DO: u32 = 44;

pub const VAR: u32 = 45;

pub const IN: u32 = 46;

pub const OPEN: u32 = 47;

pub const AS: u32 = 48;
