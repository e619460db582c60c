// The objects of the system: a reader, a writer and a file. They tell nothing of their bytes.

ghost use Rattle.std.specs.Prelude.{◌≡◌, ◌≤◌, ◌<◌, length, None, false, IfOk, IfSome, OnOk, IsErrOf};
ghost use Rattle.std.specs.Io.KnownBytes.{Appends};
ghost use Rattle.kv_io.specs.Limits.{file_limit};
ghost use Rattle.kv_io.specs.Outside.{LoadsAtMost};

use crate::outside::{FILE_LIMIT, Failed, LoadError, Sink, Source, Store};
use kv_names::{Bytes, NoMemory};
use std::alloc::Global;
use std::fs;
use std::io::{self, Read, Write};
use std::marker::Model;
use std::rt::Files;

/// A reader as a source. It counts each error of the reader as a fault.
#[derive(Drop)]
pub struct StdSource<R: Read + Drop> {
    reader: R,
    faults: u64,
}

impl<R: Read + Drop> Model for StdSource<R> {
    ghost use Rattle.kv_io.specs.Standard.{StreamState};

    ghost Value = { StreamState };

    ghost view = { λ s. record { faults = s.faults } };
}

impl<R: Read + Drop> StdSource<R> {
    /// A source of what the reader gives. A reader that is slow byte by byte belongs in a `BufReader`.
    pub fn new(reader: R) -> StdSource<R>
        ensures { result ≡ record { faults = 0 } }
    {
        StdSource { reader, faults: 0 }
    }
}

impl<R: Read + Drop> Source for StdSource<R> {
    ghost left = { λ _. None };

    ghost faults = { λ s. s.faults };

    fn read(&mut self, buffer: &mut [u8]) -> Result<usize, Failed> {
        match self.reader.read(buffer) {
            Ok(count) => Ok(count),
            Err(_) => {
                self.faults = self.faults.saturating_add(1);
                Err(Failed)
            }
        }
    }
}

/// A writer as a sink. It counts each error of the writer as a fault, and each write that takes nothing.
#[derive(Drop)]
pub struct StdSink<W: Write + Drop> {
    writer: W,
    faults: u64,
}

impl<W: Write + Drop> Model for StdSink<W> {
    ghost use Rattle.kv_io.specs.Standard.{StreamState};

    ghost Value = { StreamState };

    ghost view = { λ s. record { faults = s.faults } };
}

impl<W: Write + Drop> StdSink<W> {
    /// A sink of what the writer takes.
    pub fn new(writer: W) -> StdSink<W>
        ensures { result ≡ record { faults = 0 } }
    {
        StdSink { writer, faults: 0 }
    }
}

// Writes all bytes and flushes. A write that takes none of them is a fault.
fn write_whole<W: Write>(writer: &mut W, bytes: &[u8]) -> Result<(), Failed>
    ensures { OnOk result (Appends (W.contents writer.old) (W.contents writer.new) bytes.now) }
{
    let mut at = 0;
    while at < bytes.len() {
        match writer.write(&bytes[at..]) {
            Ok(0) | Err(_) => return Err(Failed),
            Ok(count) => at += count,
        }
    }
    writer.flush().map_err(|_| Failed)
}

impl<W: Write + Drop> Sink for StdSink<W> {
    ghost wrote = { λ _. None };

    ghost faults = { λ s. s.faults };

    fn write(&mut self, piece: &[u8]) -> Result<usize, Failed> {
        if write_whole(&mut self.writer, piece).is_err() {
            self.faults = self.faults.saturating_add(1);
            return Err(Failed);
        }
        Ok(piece.len())
    }
}

/// A file of the system as a store. It counts each error but that there is no file as a fault.
#[derive(Drop)]
pub struct FileStore<R: Files + Drop> {
    files: R,
    alloc: Global,
    name: Option<String>,
    faults: u64,
}

impl<R: Files + Drop> Model for FileStore<R> {
    ghost use Rattle.std.specs.Prelude.{option_map, string_bytes};
    ghost use Rattle.kv_io.specs.Standard.{FileState};

    ghost Value = { FileState };

    ghost view = { λ s. record { chosen = option_map string_bytes s.name; faults = s.faults } };
}

impl<R: Files + Drop> FileStore<R> {
    /// A store of one of these files, of which none is chosen yet. The name is a path.
    pub fn new(alloc: Global, files: R) -> FileStore<R>
        ensures { result ≡ record { chosen = None; faults = 0 } }
    {
        FileStore {
            files,
            alloc,
            name: None,
            faults: 0,
        }
    }
}

// Reads to the end, or past the limit, a chunk at a time.
fn read_whole<F: Read>(alloc: Global, file: &mut F) -> Result<Bytes, LoadError>
    ensures limit { IfOk result (λ bytes. length bytes ≤ file_limit) }
    ensures all { IfOk result (λ bytes. IfSome (F.remaining file.old) (λ all. bytes ≡ all)) }
    ensures too_long { IsErrOf result LoadError.TooLong
        → IfSome (F.remaining file.old) (λ all. file_limit < length all) }
{
    let mut bytes = Bytes::new(alloc);
    let mut chunk = [0u8; 8192];
    while bytes.bytes().len() <= FILE_LIMIT {
        match file.read(&mut chunk) {
            Ok(0) => return Ok(bytes),
            Ok(count) => bytes.append(&chunk[..count])?,
            Err(_) => return Err(LoadError::Failed),
        }
    }
    Err(LoadError::TooLong)
}

// Opens and reads the file of this name; None where there is none.
fn load_file<R: Files>(alloc: Global, files: &R, name: &str) -> Result<Option<Bytes>, LoadError>
    ensures { LoadsAtMost file_limit result }
{
    match fs::open(files, name) {
        Ok(mut file) => Ok(Some(read_whole(alloc, &mut file)?)),
        Err(error) if error.kind() == io::ErrorKind::NotFound => Ok(None),
        Err(_) => Err(LoadError::Failed),
    }
}

// Writes the file of this name from its start, in place of what it held.
fn save_file<R: Files>(files: &R, name: &str, bytes: &[u8]) -> Result<(), Failed> {
    match fs::create(files, name) {
        Ok(mut file) => write_whole(&mut file, bytes),
        Err(_) => Err(Failed),
    }
}

impl<R: Files + Drop> Store for FileStore<R> {
    ghost chosen = { λ s. s.chosen };

    ghost held = { λ _. None };

    ghost tells = { λ _. false };

    ghost faults = { λ s. s.faults };

    fn choose(&mut self, file: &str) -> Result<(), NoMemory> {
        self.name = Some(String::from_str(self.alloc, file)?);
        Ok(())
    }

    fn load(&mut self, alloc: Global) -> Result<Option<Bytes>, LoadError> {
        let Some(name) = &self.name else {
            unreachable!()
        };
        let loaded = load_file(alloc, &self.files, name.as_str());
        if let Err(LoadError::Failed) = &loaded {
            self.faults = self.faults.saturating_add(1);
        }
        loaded
    }

    fn save(&mut self, bytes: &[u8]) -> Result<(), Failed> {
        let Some(name) = &self.name else {
            unreachable!()
        };
        let saved = save_file(&self.files, name.as_str(), bytes);
        if saved.is_err() {
            self.faults = self.faults.saturating_add(1);
        }
        saved
    }
}
