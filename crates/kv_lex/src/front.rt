// The front of a text: its first character, its blanks and comments, its runs.

ghost use Rattle.std.specs.Prelude.{ℕ, ◌≡◌, [], ◌∷◌, ◌++◌, List, MatchOption, take, drop, length, ◌≤◌};
ghost use Rattle.std.specs.Str.{chars, encode_utf8_all, IsUtf8};
ghost use Rattle.std.specs.Char.{is_ascii_digit};
ghost use Rattle.unicode_ident.specs.Ident.{is_xid_continue};
ghost use Rattle.kv_lex.specs.Tokens.{is_blank, skip, past};

use unicode_ident::is_xid_continue;

/// The first character, and the text behind it; None where the text is empty.
pub(crate) fn first(text: &str) -> Option<(char, &str)>
    ensures { MatchOption result (chars text.now ≡ []) (λ r. (chars text.now ≡ r.0 ∷ chars r.1.now) × IsUtf8 r.1.now) }
{
    let mut rest = text.chars();
    match rest.next() {
        Some(c) => Some((c, rest.as_str())),
        None => None,
    }
}

fn is_blank(c: char) -> bool
    ensures { result ≡ is_blank c }
{
    c == ' ' || c == '\t' || c == '\r' || c == '\n'
}

/// The text without the blanks and comments at its front.
pub(crate) fn skip(text: &str) -> &str
    ensures { chars result.now ≡ skip (chars text.now) }
{
    let mut rest = text;
    let mut in_comment = false;
    while let Some((c, after)) = first(rest) {
        if in_comment {
            in_comment = c != '\n';
        } else if c == '%' {
            in_comment = true;
        } else if !is_blank(c) {
            return rest;
        }
        rest = after;
    }
    rest
}

/// The text behind the characters at its front that may continue a name.
pub(crate) fn past_name(text: &str) -> &str
    ensures { chars result.now ≡ past is_xid_continue (chars text.now) }
{
    let mut rest = text;
    while let Some((c, after)) = first(rest) {
        if !is_xid_continue(c) {
            return rest;
        }
        rest = after;
    }
    rest
}

/// The text behind the digits at its front.
pub(crate) fn past_digits(text: &str) -> &str
    ensures { chars result.now ≡ past is_ascii_digit (chars text.now) }
{
    let mut rest = text;
    while let Some((c, after)) = first(rest) {
        if !c.is_ascii_digit() {
            return rest;
        }
        rest = after;
    }
    rest
}

/// The text behind its first `count` characters, or behind all where it has fewer.
pub(crate) fn past_count(text: &str, count: usize) -> &str
    ensures { chars result.now ≡ drop count (chars text.now) }
{
    let mut rest = text;
    for _done in 0..count {
        let Some((_, after)) = first(rest) else {
            return rest;
        };
        rest = after;
    }
    rest
}

/// The front of the text, which ends where the rest begins.
pub(crate) fn until<'a>(text: &'a str, rest: &str) -> &'a str
    requires { (front : List ℕ) × (chars text.now ≡ front ++ chars rest.now) }
    ensures { (front : List ℕ) → chars text.now ≡ front ++ chars rest.now → result.now ≡ encode_utf8_all front }
{
    &text[..text.len() - rest.len()]
}
