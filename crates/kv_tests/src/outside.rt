// Readers and writers that fail in mid-stream, an input without end, and files in a folder of the tests' own.

ghost use Rattle.std.specs.Prelude.{◌≡◌, ◌≢◌, None};

use kv_io::{
    FILE_LIMIT, Failed, FileStore, INPUT_LIMIT, Lines, LoadError, Next, Sink, Source, StdSink,
    StdSource, Store, next_command,
};
use kv_syn::Bytes;
use std::alloc::Global;
use std::fs;
use std::io::{self, Read, Write};
use std::test::Fail;

// A device that moves at most two bytes a call, and at its third call fails or stops.
#[derive(Drop)]
struct Flaky {
    calls: u8,
    stops: bool,
}

impl Read for Flaky {
    fn read(&mut self, buf: &mut [u8]) -> io::Result<usize> {
        self.calls = self.calls.saturating_add(1);
        if self.calls == 3 {
            return Err(io::Error::from(io::ErrorKind::Other));
        }
        Ok(buf.len().min(2))
    }
}

impl Write for Flaky {
    fn write(&mut self, buf: &[u8]) -> io::Result<usize> {
        self.calls = self.calls.saturating_add(1);
        if self.calls == 3 && self.stops {
            return Ok(0);
        }
        if self.calls == 3 {
            return Err(io::Error::from(io::ErrorKind::Other));
        }
        Ok(buf.len().min(2))
    }

    fn flush(&mut self) -> io::Result<()> {
        Ok(())
    }
}

#[test]
fn a_reader_fails_once_and_goes_on(rt: HostRuntime) {
    let mut source = StdSource::new(Flaky {
        calls: 0,
        stops: false,
    });
    let mut room = [0; 5];
    assert_eq!(rt; source.read(&mut room), Ok(2));
    assert_eq!(rt; source.read(&mut room), Ok(2));
    assert_eq!(rt; source.read(&mut room), Err(Failed));
    assert_eq!(rt; source.read(&mut room[..1]), Ok(1));
}

#[test]
fn a_writer_fails_once_and_goes_on(rt: HostRuntime) {
    for stops in [false, true] {
        let mut sink = StdSink::new(Flaky { calls: 0, stops });
        assert_eq!(rt; sink.write(b""), Ok(0));
        assert_eq!(rt; sink.write(b"four"), Ok(4));
        assert_eq!(rt; sink.write(b"x"), Err(Failed));
        assert_eq!(rt; sink.write(b"seven.."), Ok(7));
    }
}

// A source of commands that each fill a read, which ends at a place or goes on for ever.
#[derive(Drop)]
struct Filler {
    given: usize,
    end: Option<usize>,
}

impl Source for Filler {
    ghost left = { λ _. None };

    ghost faults = { λ _. 0 };

    fn read(&mut self, buffer: &mut [u8]) -> Result<usize, Failed> {
        if Some(self.given) == self.end {
            return Ok(0);
        }
        for (index, byte) in buffer.iter_mut().enumerate() {
            *byte = match index {
                4093 | 4095 => b'\n',
                4094 => b'.',
                _ => b'x',
            };
        }
        self.given = self.given.saturating_add(buffer.len());
        Ok(buffer.len())
    }
}

// What stands behind as many bytes as an input may have, where these are commands.
fn behind_the_limit(alloc: Global, end: Option<usize>) -> Option<Next> {
    let mut source = Filler { given: 0, end };
    let mut lines = Lines::new(alloc);
    for _ in 0..INPUT_LIMIT / 4096 {
        let next = next_command(&mut source, &mut lines);
        if !matches!(next, Next::Command(_)) {
            return None;
        }
    }
    Some(next_command(&mut source, &mut lines))
}

#[test]
fn an_input_without_end_is_too_long(rt: HostRuntime) {
    let next = behind_the_limit(rt.alloc(), None);
    assert!(rt; matches!(next, Some(Next::TooLong)));
}

#[test]
fn an_input_of_the_limit_ends(rt: HostRuntime) {
    let next = behind_the_limit(rt.alloc(), Some(INPUT_LIMIT));
    assert!(rt; matches!(next, Some(Next::End)));
}

fn is_loaded(loaded: Result<Option<Bytes>, LoadError>, wanted: Option<&[u8]>) -> bool {
    match (loaded, wanted) {
        (Ok(None), None) => true,
        (Ok(Some(bytes)), Some(wanted)) => bytes.bytes() == wanted,
        _ => false,
    }
}

fn is_refused(loaded: Result<Option<Bytes>, LoadError>, wanted: LoadError) -> bool {
    matches!(loaded, Err(error) if error == wanted)
}

// Whether the store keeps these bytes from a save to a load.
fn is_kept<S: Store>(alloc: Global, store: &mut S, bytes: &[u8]) -> bool
    requires { S.chosen store.old ≢ None }
    ensures { S.chosen store.new ≡ S.chosen store.old }
{
    store.save(bytes).is_ok() && is_loaded(store.load(alloc), Some(bytes))
}

#[test]
fn a_file_is_saved_and_loaded(rt: HostRuntime) -> Result<(), Fail> {
    let alloc = rt.alloc();
    let _ = fs::remove_dir_all(&rt, "saved");
    fs::create_dir(&rt, "saved")?;
    let mut store = FileStore::new(alloc, rt.clone()?);
    store.choose("saved/a.kiv")?;
    assert!(rt; is_loaded(store.load(alloc), None));
    let long = vec![in alloc; b'x'; 20_000]?;
    assert!(rt; is_kept(alloc, &mut store, &long));
    assert!(rt; is_kept(alloc, &mut store, b"project 1\n"));
    fs::remove_dir_all(&rt, "saved")?;
    Ok(())
}

#[test]
fn a_folder_is_no_file(rt: HostRuntime) -> Result<(), Fail> {
    let alloc = rt.alloc();
    let _ = fs::remove_dir_all(&rt, "folder");
    fs::create_dir(&rt, "folder")?;
    let mut store = FileStore::new(alloc, rt.clone()?);
    store.choose("folder")?;
    assert!(rt; is_refused(store.load(alloc), LoadError::Failed));
    assert_eq!(rt; store.save(b"x"), Err(Failed));
    let mut store = FileStore::new(alloc, rt.clone()?);
    store.choose("folder/none/a.kiv")?;
    assert!(rt; is_loaded(store.load(alloc), None));
    assert_eq!(rt; store.save(b"x"), Err(Failed));
    fs::remove_dir_all(&rt, "folder")?;
    Ok(())
}

#[test]
fn a_file_past_the_limit_is_too_long(rt: HostRuntime) -> Result<(), Fail> {
    let alloc = rt.alloc();
    let _ = fs::remove_dir_all(&rt, "limit");
    fs::create_dir(&rt, "limit")?;
    let mut bytes = vec![in alloc; b'x'; FILE_LIMIT]?;
    let mut store = FileStore::new(alloc, rt.clone()?);
    store.choose("limit/a.kiv")?;
    assert!(rt; is_kept(alloc, &mut store, &bytes));
    bytes.push(b'x')?;
    assert_eq!(rt; store.save(&bytes), Ok(()));
    assert!(rt; is_refused(store.load(alloc), LoadError::TooLong));
    fs::remove_dir_all(&rt, "limit")?;
    Ok(())
}
