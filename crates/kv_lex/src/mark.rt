// The rows of the marks, by name.

pub const OPEN: u32 = 0; // (

pub const CLOSE: u32 = 1; // )

pub const OPEN_SQUARE: u32 = 2; // [

pub const CLOSE_SQUARE: u32 = 3; // ]

pub const OPEN_BRACE: u32 = 4; // {

pub const CLOSE_BRACE: u32 = 5; // }

pub const LESS: u32 = 6; // <

pub const GREATER: u32 = 7; // >

pub const COMMA: u32 = 8; // ,

pub const SEMICOLON: u32 = 9; // ;

pub const COLON: u32 = 10; // :

pub const ASSIGN: u32 = 11; // :=

pub const DOT: u32 = 12; // .

pub const EQUAL: u32 = 13; // =

pub const MAPS_TO: u32 = 14; // =>

pub const ARROW: u32 = 15; // ->

pub const DOUBLE_ARROW: u32 = 16; // <->

pub const BAR: u32 = 17; // |
