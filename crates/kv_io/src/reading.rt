// A reader that cuts commands from a source.

ghost use Rattle.std.specs.Prelude.{◌≡◌, ◌≢◌, ◌≤◌, ◌<◌, ◌⊎◌, List, ℕ, Option, length, true, false, Err, IfErr, IfSome, IfNone, OnOk, OnErr};
ghost use Rattle.kv_io.specs.Outside.{Rose};
ghost use Rattle.kv_io.specs.Lines.{Tells, IsOpen, IsEnd, room_of, nothing_ahead};
ghost use Rattle.kv_io.specs.Reading.{IsReading, IsLast, Gives, ReadsPiece, ReadsOn, turns_of, ahead_of, answer_of, stop_answer};

use crate::held::Held;
use crate::outside::Source;
use crate::scan::{Found, find_command, is_blank_text, is_full_stop_line, is_too_long};
use kv_names::{Bytes, NoMemory};
use std::alloc::Global;

/// The greatest length of a command, in bytes.
pub const COMMAND_LIMIT: usize = 1_048_576;

/// The greatest length of an input, in bytes.
pub const INPUT_LIMIT: usize = 67_108_864;

/// The greatest number of bytes that a reader of commands asks for at once.
pub const READ_SIZE: usize = 4096;

// Why no further command is given.
#[derive(Clone, Copy)]
pub enum Stop {
    End,
    Cut,
    TooLong,
    ReadFault,
    NoMemory,
}

impl From<NoMemory> for Stop {
    ghost use Rattle.std.specs.Prelude.{◌≡◌};
    ghost use Rattle.kv_io.specs.declared.reading.Stop.{Stop};

    ghost from_gives = { λ _ stop. stop ≡ Stop.NoMemory };

    fn from(_error: NoMemory) -> Stop {
        Stop::NoMemory
    }
}

// What was read of a source and not given yet. Each byte is looked at once for a line feed, copied into `held` once,
// moved there at most once, and copied into a command once, however the source cuts its bytes; so the work on an input
// is linear in its length.
#[derive(Drop)]
pub struct Reading {
    alloc: Global,
    pub held: Held,
    // Where a line starts before which no end line stands, and how many bytes of this line have no line feed.
    pub line: usize,
    pub scanned: usize,
    // How many bytes were read in all, and whether their end was seen.
    pub read: usize,
    pub ended: bool,
}

// Reads as many bytes as there is room for, or fewer. Where there is none it asks for a byte that would be too many. It
// answers how many bytes were read, and 0 at the end of the input.
fn read_piece<I: Source>(held: &mut Held, source: &mut I, room: usize) -> Result<usize, Stop>
    ensures reads { ReadsPiece held.old room (I.left source.old) result held.new (I.left source.new) }
    ensures later { I.faults source.old ≤ I.faults source.new }
    ensures cause { result ≡ Err Stop.ReadFault → Rose (I.faults source.old) (I.faults source.new) }
{
    let mut chunk = [0; READ_SIZE];
    let wanted = room.min(READ_SIZE).max(1);
    let Ok(count) = source.read(&mut chunk[..wanted]) else {
        return Err(Stop::ReadFault);
    };
    if count > room {
        return Err(Stop::TooLong);
    }
    held.append(&chunk[..count])?;
    Ok(count)
}

impl Reading {
    // Nothing was read yet.
    pub fn new(alloc: Global) -> Reading
        ensures keeps { IsReading result }
        ensures ahead { ahead_of result ≡ nothing_ahead }
    {
        Reading {
            alloc,
            held: Held::new(alloc),
            line: 0,
            scanned: 0,
            read: 0,
            ended: false,
        }
    }

    // Gives so many bytes as a command, and goes on at the next place.
    fn give(&mut self, command: usize, next: usize) -> Result<Bytes, Stop>
        requires order { command ≤ next }
        requires within { next ≤ length self.old.held }
        ensures { Gives self.old command next result self.new }
    {
        if command > COMMAND_LIMIT {
            return Err(Stop::TooLong);
        }
        let text = Bytes::from_bytes(self.alloc, &self.held.bytes()[..command])?;
        self.held.skip(next);
        self.line = 0;
        self.scanned = 0;
        Ok(text)
    }

    // What the last line says, which has no line feed, behind the end of the input.
    fn finish(&mut self) -> Result<Bytes, Stop>
        requires keeps { IsReading self.old }
        requires last { IsLast self.old.held self.old.line }
        requires ended { self.old.ended ≡ true }
        ensures keeps { IsReading self.new }
        ensures tells { (left : Option (List ℕ)) → Tells (ahead_of self.old) left (answer_of result) (ahead_of self.new) left }
        ensures ended { self.new.ended ≡ true }
        ensures no_fault { result ≢ Err Stop.ReadFault }
        ensures room { OnOk result (room_of (ahead_of self.new) < room_of (ahead_of self.old)) }
    {
        let bytes = self.held.bytes();
        let len = bytes.len();
        if is_full_stop_line(&bytes[self.line..]) {
            return self.give(self.line, len);
        }
        if len > COMMAND_LIMIT {
            Err(Stop::TooLong)
        } else if is_blank_text(bytes) {
            Err(Stop::End)
        } else {
            Err(Stop::Cut)
        }
    }

    // What is said by what is held, or None where more has to be read.
    fn tell(&mut self) -> Option<Result<Bytes, Stop>>
        requires { IsReading self.old }
        ensures keeps { IsReading self.new }
        ensures tells { IfSome result (λ told. (left : Option (List ℕ))
            → Tells (ahead_of self.old) left (answer_of told) (ahead_of self.new) left) }
        ensures open { IfNone result (IsOpen self.old.held) }
        ensures last { IfNone result (IsLast self.new.held self.new.line) }
        ensures going { IfNone result (self.old.ended ≡ false) }
        ensures same { IfNone result (ahead_of self.new ≡ ahead_of self.old) }
        ensures ended { self.new.ended ≡ self.old.ended }
        ensures no_fault { IfSome result (λ told. told ≢ Err Stop.ReadFault) }
        ensures end { IfSome result (λ told. IsEnd (answer_of told) → self.new.ended ≡ true) }
        ensures room { IfSome result (λ told. OnOk told (room_of (ahead_of self.new) < room_of (ahead_of self.old))) }
    {
        match find_command(self.held.bytes(), self.line, self.scanned) {
            Found::Whole { command, next } => return Some(self.give(command, next)),
            Found::Open { line } => self.line = line,
        }
        self.scanned = self.held.bytes().len() - self.line;
        if self.ended {
            return Some(self.finish());
        }
        if is_too_long(self.held.bytes(), self.line) {
            return Some(Err(Stop::TooLong));
        }
        None
    }

    // Reads once.
    fn read_on<I: Source>(&mut self, source: &mut I) -> Result<(), Stop>
        requires keeps { IsReading self.old }
        requires last { IsLast self.old.held self.old.line }
        requires open { IsOpen self.old.held }
        requires going { self.old.ended ≡ false }
        ensures keeps { IsReading self.new }
        ensures reads { ReadsOn (ahead_of self.old) (I.left source.old) result (ahead_of self.new) (I.left source.new) }
        ensures room { OnOk result (room_of (ahead_of self.new) ≡ room_of (ahead_of self.old)) }
        ensures less { OnOk result (turns_of (ahead_of self.new) < turns_of (ahead_of self.old)) }
        ensures ended { OnErr result (self.new.ended ≡ false) }
        ensures stop { IfErr result (λ stop. IsEnd (stop_answer stop) → ⊥) }
        ensures later { I.faults source.old ≤ I.faults source.new }
        ensures cause { result ≡ Err Stop.ReadFault → Rose (I.faults source.old) (I.faults source.new) }
    {
        match read_piece(&mut self.held, source, INPUT_LIMIT - self.read) {
            Ok(0) => {
                self.ended = true;
                Ok(())
            }
            Ok(count) => {
                self.read += count;
                Ok(())
            }
            Err(stop) => Err(stop),
        }
    }

    // The next command, or why there is none.
    pub fn advance<I: Source>(&mut self, source: &mut I) -> Result<Bytes, Stop>
        requires { IsReading self.old }
        ensures keeps { IsReading self.new }
        ensures tells { Tells (ahead_of self.old) (I.left source.old) (answer_of result) (ahead_of self.new) (I.left source.new) }
        ensures needed { (source.new ≡ source.old) ⊎ ((self.old.ended ≡ false) × IsOpen self.old.held) }
        ensures ended { self.old.ended ≡ true → self.new.ended ≡ true }
        ensures end { IsEnd (answer_of result) → self.new.ended ≡ true }
        ensures no_fault { self.old.ended ≡ true → result ≢ Err Stop.ReadFault }
        ensures room { OnOk result (room_of (ahead_of self.new) < room_of (ahead_of self.old)) }
        ensures later { I.faults source.old ≤ I.faults source.new }
        ensures cause { result ≡ Err Stop.ReadFault → Rose (I.faults source.old) (I.faults source.new) }
    {
        'reads: loop {
            if let Some(told) = self.tell() {
                return told;
            }
            if let Err(stop) = self.read_on(source) {
                return Err(stop);
            }
        }
    }
}
