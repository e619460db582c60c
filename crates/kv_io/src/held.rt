// Bytes on their way from a source to a reader.

ghost use Rattle.std.specs.Prelude.{◌≡◌, ◌≤◌, ◌++◌, [], length, drop, OnOk, OnErr};

use kv_names::NoMemory;
use std::alloc::Global;
use std::marker::Model;

// Bytes that are added at the end and skipped at the front. What is skipped stays where it is until bytes are added:
// then the bytes that are left move to the start. A reader that adds only once no whole command is left moves at most
// what it added last, so each byte moves at most once.
#[derive(Drop)]
pub struct Held {
    bytes: Vec<u8>,
    start: usize,
}

impl Model for Held {
    ghost use Rattle.std.specs.Prelude.{List, ℕ, ◌≤◌, length, drop};

    ghost Value = { List ℕ };

    ghost view = { λ h. drop h.start h.bytes.items };

    ghost invariant = { λ h. h.start ≤ length h.bytes.items };
}

impl Held {
    // No bytes. It takes no memory yet.
    pub fn new(alloc: Global) -> Held
        ensures { result ≡ [] }
    {
        Held {
            bytes: Vec::new(alloc),
            start: 0,
        }
    }

    // Lends the bytes.
    pub fn bytes(&self) -> &[u8]
        ensures { result.now ≡ self.now }
    {
        &self.bytes[self.start..]
    }

    // Skips so many bytes at the front.
    pub fn skip(&mut self, count: usize)
        requires { count ≤ length self.old }
        ensures { self.new ≡ drop count self.old }
    {
        self.start += count;
    }

    // Moves the bytes to the start.
    fn close_up(&mut self)
        ensures { self.new ≡ self.old }
    {
        if self.start > 0 {
            let count = self.bytes.len() - self.start;
            self.bytes.copy_within(self.start.., 0);
            self.bytes.truncate(count);
            self.start = 0;
        }
    }

    // Adds these bytes at the end. After `NoMemory` the bytes are as before.
    pub fn append(&mut self, more: &[u8]) -> Result<(), NoMemory>
        ensures ok { OnOk result (self.new ≡ self.old ++ more.now) }
        ensures err { OnErr result (self.new ≡ self.old) }
    {
        self.close_up();
        self.bytes.extend_from_slice(more)?;
        Ok(())
    }
}
