// What was read.

use kv_lex::Token;

/// A tree, its height, and the tokens behind it.
#[derive(Drop)]
pub struct Found<'a, T> {
    pub tree: T,
    pub height: u32,
    pub rest: &'a [Token],
}
