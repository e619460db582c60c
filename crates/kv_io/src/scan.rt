// Lines and end lines in bytes that were read.

ghost use Rattle.std.specs.Prelude.{◌≡◌, ◌≤◌, length, drop, true, false, IfSome, IfNone};
ghost use Rattle.std.specs.List.{list_all};
ghost use Rattle.kv_io.specs.Framing.{is_full_stop, is_blank};
ghost use Rattle.kv_io.specs.Lines.{IsTooLong};
ghost use Rattle.kv_io.specs.Reading.{HasFeed, IsFree, IsLast, IsScanned, Finds, may_be_full_stop};

use crate::reading::COMMAND_LIMIT;

// What is found first in some bytes.
pub enum Found {
    // An end line with its line feed: the command before it has so many bytes, and the line ends before this place.
    Whole { command: usize, next: usize },
    // No end line, but the start of the last line, which has no line feed.
    Open { line: usize },
}

// The place of the first line feed from this place on.
fn find_feed(bytes: &[u8], from: usize) -> Option<usize>
    requires { from ≤ length bytes.now }
    ensures some { IfSome result (λ at. HasFeed bytes.now from at) }
    ensures none { IfNone result (IsFree (drop from bytes.now)) }
{
    let rest = &bytes[from..];
    for (index, byte) in rest.iter().enumerate() {
        if *byte == b'\n' {
            return Some(from + index);
        }
    }
    None
}

// Whether a line has only a full stop.
pub fn is_full_stop_line(text: &[u8]) -> bool
    ensures { result ≡ is_full_stop text.now }
{
    matches!(text, [b'.'] | [b'.', b'\r'])
}

// Whether an end line may begin so.
fn may_be_full_stop_line(text: &[u8]) -> bool
    ensures { result ≡ may_be_full_stop text.now }
{
    matches!(text, [] | [b'.'] | [b'.', b'\r'])
}

// Looks for the first end line. The bytes before this line have none, and so many bytes of it have no line feed: they
// aren't looked at again.
pub fn find_command(bytes: &[u8], line: usize, scanned: usize) -> Found
    requires { IsScanned bytes.now line scanned }
    ensures { Finds bytes.now result }
{
    let mut start = line;
    let mut from = line + scanned;
    while let Some(feed) = find_feed(bytes, from) {
        if is_full_stop_line(&bytes[start..feed]) {
            return Found::Whole {
                command: start,
                next: feed + 1,
            };
        }
        start = feed + 1;
        from = start;
    }
    Found::Open { line: start }
}

// Whether too many bytes stand before the next end line, whatever follows.
pub fn is_too_long(bytes: &[u8], line: usize) -> bool
    requires { IsLast bytes.now line }
    ensures yes { result ≡ true → IsTooLong bytes.now }
    ensures no { result ≡ false → ¬ (IsTooLong bytes.now) }
{
    line > COMMAND_LIMIT || bytes.len() > COMMAND_LIMIT && !may_be_full_stop_line(&bytes[line..])
}

// Whether there are only spaces, tabs, carriage returns and line feeds.
pub fn is_blank_text(text: &[u8]) -> bool
    ensures { result ≡ list_all is_blank text.now }
{
    text.iter()
        .all(|byte| matches!(*byte, b' ' | b'\t' | b'\r' | b'\n'))
}
