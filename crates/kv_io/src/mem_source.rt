// A source in memory.

ghost use Rattle.std.specs.Prelude.{◌≡◌, ◌≤◌, ◌<◌, ◌++◌, min, length, drop, take, Some, [], is_err, IfOk, OnErr};
ghost use Rattle.kv_io.specs.Memory.{no_calls, is_due, after_call};

use crate::calls::Calls;
use crate::outside::{Failed, Source};
use kv_names::NoMemory;
use std::alloc::Global;
use std::marker::Model;

/// A source that gives the bytes it was made with, at most so many in a call, and fails at the calls it was told.
#[derive(Drop)]
pub struct MemSource {
    content: Vec<u8>,
    at: usize,
    most: usize,
    calls: Calls,
}

impl Model for MemSource {
    ghost use Rattle.std.specs.Prelude.{◌≤◌, drop, length};
    ghost use Rattle.kv_io.specs.Memory.{SourceState};

    ghost Value = { SourceState };

    ghost view = { λ s. record { left = drop s.at s.content.items; most = s.most; calls = s.calls } };

    ghost invariant = { λ s. (s.at ≤ length s.content.items) × (1 ≤ s.most) };
}

impl MemSource {
    /// A source of these bytes. `fails` has the calls of `read` that are to fail, counted from 0, and `most` is
    /// the greatest number of bytes that a call gives.
    pub fn make(
        alloc: Global,
        content: &[u8],
        fails: &[u64],
        most: usize,
    ) -> Result<MemSource, NoMemory>
        requires { 1 ≤ most }
        ensures { IfOk result (λ s. s ≡ record { left = content.now; most = most; calls = no_calls fails.now }) }
    {
        Ok(MemSource {
            content: content.to_vec(alloc)?,
            at: 0,
            most,
            calls: Calls::make(alloc, fails)?,
        })
    }
}

// Copies as many bytes as fit from this place on into the front of the buffer, but no more than `most`.
fn copy_front(content: &[u8], at: usize, most: usize, buffer: &mut [u8]) -> usize
    requires { at ≤ length content.now }
    ensures count { result ≡ min most (min (length buffer.old) (length (drop at content.now))) }
    ensures bytes { take result buffer.new ≡ take result (drop at content.now) }
{
    let count = most.min(buffer.len()).min(content.len() - at);
    buffer[..count].copy_from_slice(&content[at..at + count]);
    count
}

impl Source for MemSource {
    ghost left = { λ s. Some s.left };

    ghost faults = { λ s. s.calls.faults };

    fn read(&mut self, buffer: &mut [u8]) -> Result<usize, Failed>
        ensures fails { is_err result ≡ is_due self.old.calls }
        ensures count { IfOk result (λ n. n ≡ min self.old.most (min (length buffer.old) (length self.old.left))) }
        ensures bytes { IfOk result (λ n. self.old.left ≡ take n buffer.new ++ self.new.left) }
        ensures end { IfOk result (λ n. n ≡ 0 → 0 < length buffer.old → self.old.left ≡ []) }
        ensures failed { OnErr result (self.new.left ≡ self.old.left) }
        ensures calls { self.new.calls ≡ after_call self.old.calls (is_err result) }
        ensures most { self.new.most ≡ self.old.most }
    {
        let failed = self.calls.is_due();
        self.calls.count(failed);
        if failed {
            return Err(Failed);
        }
        let count = copy_front(&self.content, self.at, self.most, buffer);
        self.at += count;
        Ok(count)
    }
}
