// The outside that cases run over.

ghost use Rattle.std.specs.Prelude.{◌≤◌, length, IfSome};

use crate::errors::CaseError;
use crate::texts::{Case, numbers};
use std::alloc::Global;

/// How many bytes fit into a sink and a store, unless a case says.
const ROOM: usize = 1_000_000;

/// The calls that are to fail, counted from 0.
#[derive(Drop)]
pub struct Fails {
    pub reads: Vec<u64>,
    pub writes: Vec<u64>,
    pub stores: Vec<u64>,
}

impl Fails {
    pub fn none(alloc: Global) -> Fails {
        Fails {
            reads: Vec::new(alloc),
            writes: Vec::new(alloc),
            stores: Vec::new(alloc),
        }
    }

    /// Lets these calls of one kind fail.
    pub fn set(&mut self, kind: &str, calls: Vec<u64>) -> Result<(), CaseError> {
        match kind {
            "read" => self.reads = calls,
            "write" => self.writes = calls,
            "store" => self.stores = calls,
            _ => return Err(CaseError::Unknown),
        }
        Ok(())
    }
}

/// The outside that cases run over. The calls that fail and the place to read from are those of the next case alone.
#[derive(Drop)]
pub struct Setup {
    /// The file, if it is there.
    pub file: Option<Vec<u8>>,
    pub input: Vec<u8>,
    /// How many bytes a call moves at most: a run goes once with each number.
    pub most: Vec<u64>,
    /// How many bytes fit into a sink, and into a store where its file isn't longer.
    pub room: usize,
    pub fails: Fails,
    /// The token to read from.
    pub at: usize,
}

impl Setup {
    pub fn new(alloc: Global) -> Setup {
        Setup {
            file: None,
            input: Vec::new(alloc),
            most: Vec::new(alloc),
            room: ROOM,
            fails: Fails::none(alloc),
            at: 0,
        }
    }

    /// Forgets what only one case has.
    pub fn forget(&mut self, alloc: Global) {
        self.fails = Fails::none(alloc);
        self.at = 0;
    }

    /// Takes what a case sets, and says whether it sets anything.
    pub fn take(&mut self, alloc: Global, case: Case) -> Result<bool, CaseError> {
        match case.word {
            "file" => self.file = Some(case.text(alloc)?),
            "absent" => self.file = None,
            "input" => self.input = case.text(alloc)?,
            "most" => self.most = numbers(alloc, case.rest)?,
            "room" => self.room = number(case.rest)?,
            "at" => self.at = number(case.rest)?,
            "fail" => self.fail(alloc, case.rest)?,
            _ => return Ok(false),
        }
        Ok(true)
    }

    fn fail(&mut self, alloc: Global, words: &str) -> Result<(), CaseError> {
        let (kind, calls) = words.split_once(' ').ok_or(CaseError::Unknown)?;
        self.fails.set(kind, numbers(alloc, calls)?)
    }

    /// How many bytes a call moves at most, where only one number counts.
    pub fn first_most(&self) -> usize
        ensures { 1 ≤ result }
    {
        match self.most.first() {
            Some(most) => at_least_one(*most),
            None => ROOM,
        }
    }
}

/// The number, but not 0.
pub fn at_least_one(most: u64) -> usize
    ensures { 1 ≤ result }
{
    usize::try_from(most).unwrap_or(1).max(1)
}

/// The room, or the file's length where that is more.
pub fn capacity_of(file: Option<&[u8]>, room: usize) -> usize
    ensures { IfSome file.entry (λ bytes. length bytes.now ≤ result) }
{
    match file {
        Some(bytes) if bytes.len() > room => bytes.len(),
        _ => room,
    }
}

fn number(word: &str) -> Result<usize, CaseError> {
    word.parse::<usize>().map_err(|_| CaseError::Unknown)
}
