// Words that are looked up by their text, whatever their kind.

ghost use Rattle.std.specs.Prelude.{◌≡◌, ◌<◌, ◌≤◌, IfSome, IsTrue, slice_get};
ghost use Rattle.std.specs.Option.{option_map};
ghost use Rattle.kv_table.specs.Names.{row_of};
ghost use Rattle.kv_table.specs.Keywords.{keyword_rows};
ghost use Rattle.kv_punit.specs.Grammar.{text_of};
ghost use Rattle.kv_punit.specs.Tests.{are_ascii};

use kv_lex::TokenKind;
use kv_table::{Names, keywords};

/// How many keywords there are.
const KEYWORDS: usize = 49;

/// What a keyword or a name is written as.
pub fn text_of(kind: &TokenKind) -> Option<&[u8]>
    ensures { option_map (λ text. text.now) result ≡ text_of kind.now }
{
    match kind {
        TokenKind::Word(row) => keyword_text(*row),
        TokenKind::Ident(name) => Some(name.bytes()),
        TokenKind::Number(_) | TokenKind::Mark(_) => None,
    }
}

/// What a keyword is written as.
fn keyword_text(row: u32) -> Option<&'static [u8]>
    ensures { option_map (λ text. text.now) result ≡ slice_get keyword_rows row }
{
    let row = row as usize;
    if row >= KEYWORDS {
        return None;
    }
    Some(keywords().name(row).as_bytes())
}

/// The row of the table that the text is.
pub fn row_of<const N: usize>(table: &Names<N>, text: &[u8]) -> Option<u32>
    requires ascii { IsTrue (are_ascii table.now) }
    requires few { N ≤ 100 }
    ensures value { result ≡ row_of table.now text.now }
    ensures within { IfSome result (λ row. row < N) }
{
    match str::from_utf8(text) {
        Ok(text) => {
            let row = table.find(text)?;
            Some(row as u32)
        }
        Err(_) => None,
    }
}
