// Commands, one after another, from a source.

ghost use Rattle.std.specs.Prelude.{◌≡◌, ◌≢◌, ◌≤◌, ◌<◌, List, ℕ, [], None, true, IfSome, IfNone, IsSome};
ghost use Rattle.kv_io.specs.Outside.{Rose};
ghost use Rattle.kv_io.specs.Framing.{cut_of, whole_commands};
ghost use Rattle.kv_io.specs.Lines.{Tells, IsTooLong, IsEnd, IsCommand, cut_left, nothing_ahead, room_of, stop_of};
ghost use Rattle.kv_io.specs.Reading.{stop_answer};

use crate::outside::Source;
use crate::reading::{Reading, Stop};
use kv_names::Bytes;
use std::alloc::Global;
use std::marker::Model;

/// What a source of commands gives next.
#[derive(Drop)]
pub enum Next {
    /// The next command: all bytes before its end line, line feeds included.
    Command(Bytes),
    /// The input ended, and behind its last end line were only spaces, tabs, carriage returns and line feeds.
    End,
    /// The input ended inside a command.
    Cut,
    /// A command has more than `COMMAND_LIMIT` bytes, or the input has more than `INPUT_LIMIT`.
    TooLong,
    /// The source failed, and has counted it.
    ReadFault,
    NoMemory,
}

impl Stop {
    // The answer that tells this.
    fn answer(self) -> Next
        ensures { result ≡ stop_answer self }
    {
        match self {
            Stop::End => Next::End,
            Stop::Cut => Next::Cut,
            Stop::TooLong => Next::TooLong,
            Stop::ReadFault => Next::ReadFault,
            Stop::NoMemory => Next::NoMemory,
        }
    }
}

/// What was read ahead of a source, and why no further command comes.
#[derive(Drop)]
pub struct Lines {
    reading: Reading,
    stop: Option<Stop>,
}

impl Model for Lines {
    ghost use Rattle.std.specs.Prelude.{option_map};
    ghost use Rattle.kv_io.specs.Lines.{LinesState};

    ghost Value = { LinesState };

    ghost use Rattle.kv_io.specs.Reading.{IsReading, ahead_of, stop_answer};

    ghost view = { λ l. record { ahead = ahead_of l.reading; stop = option_map stop_answer l.stop } };

    ghost invariant = { λ l. IsReading l.reading };
}

impl Lines {
    /// Nothing is read ahead yet, and the commands to come are those of the input. This takes no memory yet.
    pub fn new(alloc: Global) -> Lines
        ensures ahead { result ≡ record { ahead = nothing_ahead; stop = None } }
        ensures cut { (input : List ℕ) → cut_left result.ahead input ≡ cut_of input }
    {
        Lines {
            reading: Reading::new(alloc),
            stop: None,
        }
    }
}

/// The next command of an input, or how it ends, however its source cuts its bytes. Each answer but a command is given
/// again by each later call. It reads only where what it holds is no whole command with its end line and line feed, isn't
/// too long, and isn't all of the input.
pub fn next_command<I: Source>(source: &mut I, lines: &mut Lines) -> Next
    ensures tells { IfNone lines.old.stop
        (Tells lines.old.ahead (I.left source.old) result lines.new.ahead (I.left source.new)) }
    ensures stop { lines.new.stop ≡ stop_of result }
    ensures again { IfSome lines.old.stop (λ answer. result ≡ answer) }
    ensures lines_stay { IsSome lines.old.stop → lines.new ≡ lines.old }
    ensures source_stays { IsSome lines.old.stop → source.new ≡ source.old }
    ensures not_at_whole { whole_commands lines.old.ahead.bytes ≢ [] → source.new ≡ source.old }
    ensures not_at_long { IsTooLong lines.old.ahead.bytes → source.new ≡ source.old }
    ensures not_at_end { lines.old.ahead.ended ≡ true → source.new ≡ source.old }
    ensures ended { lines.old.ahead.ended ≡ true → lines.new.ahead.ended ≡ true }
    ensures end { IfNone lines.old.stop (IsEnd result → lines.new.ahead.ended ≡ true) }
    ensures no_fault { IfNone lines.old.stop (lines.old.ahead.ended ≡ true → result ≢ Next.ReadFault) }
    ensures later { I.faults source.old ≤ I.faults source.new }
    ensures cause { IfNone lines.old.stop (result ≡ Next.ReadFault → Rose (I.faults source.old) (I.faults source.new)) }
    ensures room { IsCommand result → room_of lines.new.ahead < room_of lines.old.ahead }
{
    if let Some(stop) = lines.stop {
        return stop.answer();
    }
    match lines.reading.advance(source) {
        Ok(command) => Next::Command(command),
        Err(stop) => {
            lines.stop = Some(stop);
            stop.answer()
        }
    }
}
