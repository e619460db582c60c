// A store in memory.

ghost use Rattle.std.specs.Prelude.{◌≡◌, ◌≢◌, ◌≤◌, ◌↔◌, ◌||◌, length, Some, None, true, option_map, nat_lt, is_err, IsTrue, IsSome, IfOk, IfSome, IfNone, OnOk, OnErr, IsErrOf};
ghost use Rattle.kv_io.specs.Limits.{file_limit};
ghost use Rattle.kv_io.specs.Memory.{no_calls, is_due, after_call};
ghost use Rattle.kv_io.specs.Outside.{Loads, LoadsAtMost};

use crate::calls::Calls;
use crate::outside::{FILE_LIMIT, Failed, LoadError, Store};
use kv_names::{Bytes, NoMemory};
use std::alloc::Global;
use std::marker::Model;

/// A store that keeps its file in memory, and fails at the calls it was told and at bytes that don't fit.
#[derive(Drop)]
pub struct MemStore {
    alloc: Global,
    name: Option<String>,
    content: Vec<u8>,
    is_there: bool,
    is_told: bool,
    capacity: usize,
    calls: Calls,
}

impl Model for MemStore {
    ghost use Rattle.std.specs.Prelude.{◌≤◌, length, vec_capacity, option_map, string_bytes, Some, None, if◌then◌else◌};
    ghost use Rattle.kv_io.specs.Memory.{StoreState};

    ghost Value = { StoreState };

    ghost view = { λ s. record {
      chosen = option_map string_bytes s.name;
      held = (if s.is_told then Some (if s.is_there then Some s.content.items else None) else None);
      capacity = s.capacity;
      calls = s.calls;
    } };

    ghost invariant = { λ s. s.capacity ≤ vec_capacity s.content };
}

impl MemStore {
    /// A store under no name yet that holds this file, or none. `fails` has the calls that are to fail, where those
    /// of `load` and `save` are counted together from 0, and `capacity` is how many bytes fit. Their room is taken
    /// now.
    pub fn make(
        alloc: Global,
        content: Option<&[u8]>,
        fails: &[u64],
        capacity: usize,
    ) -> Result<MemStore, NoMemory>
        requires { IfSome content (λ bytes. length bytes.now ≤ capacity) }
        ensures { IfOk result (λ s. s ≡ record {
          chosen = None;
          held = Some (option_map (λ bytes. bytes.now) content.entry);
          capacity = capacity;
          calls = no_calls fails.now;
        }) }
    {
        let mut room = Vec::with_capacity(alloc, capacity)?;
        if let Some(bytes) = content {
            room.extend_from_slice(bytes)?;
        }
        Ok(MemStore {
            alloc,
            name: None,
            content: room,
            is_there: content.is_some(),
            is_told: true,
            capacity,
            calls: Calls::make(alloc, fails)?,
        })
    }

    /// Lends the bytes of the file that it holds, while that is told. None where there is no file, and after a save
    /// that failed.
    pub fn content(&self) -> Option<&[u8]>
        ensures told { IfSome self.now.held (λ file. option_map (λ bytes. bytes.now) result ≡ file) }
        ensures not_told { IfNone self.now.held (result ≡ None) }
    {
        if self.is_told && self.is_there {
            Some(&self.content)
        } else {
            None
        }
    }

    // Loads the file, whether it is told or not.
    fn copy(&self, alloc: Global) -> Result<Option<Bytes>, LoadError>
        ensures loads { IfSome self.now.held (λ file. Loads file result) }
        ensures limit { LoadsAtMost file_limit result }
        ensures never { result ≢ Err LoadError.Failed }
    {
        if !self.is_there {
            return Ok(None);
        }
        if self.content.len() > FILE_LIMIT {
            return Err(LoadError::TooLong);
        }
        Ok(Some(Bytes::from_bytes(alloc, &self.content)?))
    }
}

impl Store for MemStore {
    ghost chosen = { λ s. s.chosen };

    ghost held = { λ s. s.held };

    ghost tells = { λ _. true };

    ghost faults = { λ s. s.calls.faults };

    fn choose(&mut self, file: &str) -> Result<(), NoMemory>
        requires { self.old.chosen ≡ None }
        ensures ok { OnOk result (self.new ≡ record self.old { chosen = Some file.now }) }
        ensures err { OnErr result (self.new ≡ self.old) }
    {
        self.name = Some(String::from_str(self.alloc, file)?);
        Ok(())
    }

    fn load(&mut self, alloc: Global) -> Result<Option<Bytes>, LoadError>
        requires { self.old.chosen ≢ None }
        ensures fails { IsErrOf result LoadError.Failed ↔ IsTrue (is_due self.old.calls) }
        ensures state { self.new ≡ record self.old { calls = after_call self.old.calls (is_due self.old.calls) } }
        ensures loads { IfSome self.old.held (λ file. Loads file result) }
        ensures limit { LoadsAtMost file_limit result }
    {
        let failed = self.calls.is_due();
        self.calls.count(failed);
        if failed {
            return Err(LoadError::Failed);
        }
        self.copy(alloc)
    }

    fn save(&mut self, bytes: &[u8]) -> Result<(), Failed>
        requires { self.old.chosen ≢ None }
        ensures fails { is_err result ≡ (is_due self.old.calls || nat_lt self.old.capacity (length bytes.now)) }
        ensures calls { self.new.calls ≡ after_call self.old.calls (is_err result) }
        ensures capacity { self.new.capacity ≡ self.old.capacity }
        ensures saved { OnOk result (self.new.held ≡ Some (Some bytes.now)) }
        ensures failed { OnErr result (self.new.held ≡ None) }
        ensures chosen { self.new.chosen ≡ self.old.chosen }
    {
        let failed = self.calls.is_due() || bytes.len() > self.capacity;
        self.calls.count(failed);
        self.is_told = !failed;
        if failed {
            return Err(Failed);
        }
        self.content.clear();
        self.content.extend_from_slice(bytes).unwrap();
        self.is_there = true;
        Ok(())
    }
}
