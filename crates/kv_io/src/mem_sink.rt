// A sink in memory.

ghost use Rattle.std.specs.Prelude.{◌≡◌, ◌≤◌, ◌<◌, ◌-◌, ◌++◌, ◌||◌, ◌&&◌, min, length, take, Some, [], nat_lt, nat_le, is_err, IfOk, OnErr};
ghost use Rattle.kv_io.specs.Memory.{no_calls, is_due, is_full, after_call};

use crate::calls::Calls;
use crate::outside::{Failed, Sink};
use kv_names::NoMemory;
use std::alloc::Global;
use std::marker::Model;

/// A sink that keeps what it took, at most so many bytes of a call, and fails at the calls it was told and where
/// it is full.
#[derive(Drop)]
pub struct MemSink {
    content: Vec<u8>,
    most: usize,
    capacity: usize,
    calls: Calls,
}

impl Model for MemSink {
    ghost use Rattle.std.specs.Prelude.{◌≤◌, length, vec_capacity};
    ghost use Rattle.kv_io.specs.Memory.{SinkState};

    ghost Value = { SinkState };

    ghost view = { λ s. record { wrote = s.content.items; most = s.most; capacity = s.capacity; calls = s.calls } };

    ghost invariant = { λ s. (1 ≤ s.most) × (length s.content.items ≤ s.capacity)
        × (s.capacity ≤ vec_capacity s.content) };
}

impl MemSink {
    /// A sink that took nothing yet. `fails` has the calls of `write` that are to fail, counted from 0, `most` is
    /// the greatest number of bytes that a call takes, and `capacity` how many fit in all. Their room is taken now.
    pub fn make(
        alloc: Global,
        fails: &[u64],
        most: usize,
        capacity: usize,
    ) -> Result<MemSink, NoMemory>
        requires { 1 ≤ most }
        ensures { IfOk result (λ s. s ≡ record {
          wrote = [];
          most = most;
          capacity = capacity;
          calls = no_calls fails.now;
        }) }
    {
        Ok(MemSink {
            content: Vec::with_capacity(alloc, capacity)?,
            most,
            capacity,
            calls: Calls::make(alloc, fails)?,
        })
    }

    /// Lends all bytes that it took.
    pub fn content(&self) -> &[u8]
        ensures { result.now ≡ self.now.wrote }
    {
        &self.content
    }
}

impl Sink for MemSink {
    ghost wrote = { λ s. Some s.wrote };

    ghost faults = { λ s. s.calls.faults };

    fn write(&mut self, piece: &[u8]) -> Result<usize, Failed>
        ensures fails { is_err result ≡ (is_due self.old.calls || is_full self.old piece.now) }
        ensures count { IfOk result (λ n. let free = self.old.capacity - length self.old.wrote in
            n ≡ min self.old.most (min (length piece.now) free)) }
        ensures calls { self.new.calls ≡ after_call self.old.calls (is_err result) }
        ensures most { self.new.most ≡ self.old.most }
        ensures capacity { self.new.capacity ≡ self.old.capacity }
        ensures some { IfOk result (λ n. 0 < length piece.now → 0 < n) }
        ensures taken { IfOk result (λ n. self.new.wrote ≡ self.old.wrote ++ take n piece.now) }
        ensures failed { OnErr result (self.new.wrote ≡ self.old.wrote) }
    {
        let free = self.capacity - self.content.len();
        let count = self.most.min(piece.len()).min(free);
        let failed = self.calls.is_due() || free == 0 && !piece.is_empty();
        self.calls.count(failed);
        if failed {
            return Err(Failed);
        }
        self.content.extend_from_slice(&piece[..count]).unwrap();
        Ok(count)
    }
}
