// A law of tokens.

ghost use Rattle.kv_lex.specs.Laws.{ReadsExactly};

/// What `tokens` reads of a text is the one thing that the text is: gaps and tokens to its end, or up to its first fault.
pub fn reading_is_exact()
    ensures { ReadsExactly }
{}
