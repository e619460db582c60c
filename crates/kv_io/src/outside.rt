// What the program knows of the objects outside it.

ghost use Rattle.std.specs.Prelude.{◌≡◌, ◌≢◌, ◌≤◌, ◌<◌, List, ℕ, Bool, Option, [], length, take, IsTrue, IsSome, IfOk, IfSome, OnOk, OnErr, IsErrOf};
ghost use Rattle.kv_io.specs.Limits.{file_limit};
ghost use Rattle.kv_io.specs.Outside.{Takes, Adds, AddsFront, Rose, Loads, LoadsAtMost};

use kv_names::{Bytes, NoMemory};
use std::alloc::Global;
use thiserror::Error;

/// An object outside failed, and has counted it.
#[derive(Clone, Copy, Debug, PartialEq, Eq, Error)]
#[error("failed")]
pub struct Failed;

/// Why a store gave no answer.
#[derive(Clone, Copy, Debug, PartialEq, Eq, Error)]
pub enum LoadError {
    /// The store failed, and has counted it.
    #[error("failed")]
    Failed,
    /// The file has more than `FILE_LIMIT` bytes.
    #[error("too long")]
    TooLong,
    #[error("no memory")]
    NoMemory,
}

impl From<NoMemory> for LoadError {
    ghost use Rattle.std.specs.Prelude.{◌≡◌};
    ghost use Rattle.kv_io.specs.declared.outside.LoadError.{LoadError};

    ghost from_gives = { λ _ error. error ≡ LoadError.NoMemory };

    fn from(_error: NoMemory) -> LoadError {
        LoadError::NoMemory
    }
}

/// The greatest length of a stored file, in bytes.
pub const FILE_LIMIT: usize = 16_777_216;

/// Where bytes come from.
pub trait Source {
    /// The bytes still to come, where the object tells them.
    ghost left: { Self → Option (List ℕ) };

    /// How often it has failed, as far as 64 bits count.
    ghost faults: { Self → ℕ };

    /// Takes some of the next bytes into the front of the buffer, and answers how many. 0 at a buffer that has
    /// room says that no byte is left. After `Failed` no byte was taken.
    fn read(&mut self, buffer: &mut [u8]) -> Result<usize, Failed>
        ensures within { IfOk result (λ n. n ≤ length buffer.old) }
        ensures taken { IfOk result (λ n. Takes (left self.old) (take n buffer.new) (left self.new)) }
        ensures end { IfOk result (λ n. n ≡ 0 → 0 < length buffer.old
            → IfSome (left self.old) (λ bytes. bytes ≡ [])) }
        ensures failed { OnErr result (left self.new ≡ left self.old) }
        ensures later { faults self.old ≤ faults self.new }
        ensures cause { OnErr result (Rose (faults self.old) (faults self.new)) };
}

/// Where bytes go.
pub trait Sink {
    /// All bytes that it has taken, where the object tells them.
    ghost wrote: { Self → Option (List ℕ) };

    /// How often it has failed, as far as 64 bits count.
    ghost faults: { Self → ℕ };

    /// Takes a front of the piece, and answers how many bytes: at least one, if the piece has one. After
    /// `Failed` it may have taken a front of the piece, too.
    fn write(&mut self, piece: &[u8]) -> Result<usize, Failed>
        ensures within { IfOk result (λ n. n ≤ length piece.now) }
        ensures some { IfOk result (λ n. 0 < length piece.now → 0 < n) }
        ensures taken { IfOk result (λ n. Adds (wrote self.old) (take n piece.now) (wrote self.new)) }
        ensures failed { OnErr result (AddsFront (wrote self.old) piece.now (wrote self.new)) }
        ensures later { faults self.old ≤ faults self.new }
        ensures cause { OnErr result (Rose (faults self.old) (faults self.new)) };
}

/// Where one file is kept, under a name that is chosen once.
pub trait Store {
    /// The bytes of the name, once it is chosen.
    ghost chosen: { Self → Option (List ℕ) };

    /// That there is no file, or its bytes, where the object tells it now.
    ghost held: { Self → Option (Option (List ℕ)) };

    /// Whether the object tells what it holds: after each save that succeeds, it does. This never changes.
    ghost tells: { Self → Bool };

    /// How often it has failed, as far as 64 bits count.
    ghost faults: { Self → ℕ };

    /// Chooses the name. After `NoMemory` the store is as before.
    fn choose(&mut self, file: &str) -> Result<(), NoMemory>
        requires { chosen self.old ≡ None }
        ensures chosen { OnOk result (chosen self.new ≡ Some file.now) }
        ensures err { OnErr result (self.new ≡ self.old) }
        ensures held { held self.new ≡ held self.old }
        ensures tells { tells self.new ≡ tells self.old }
        ensures faults { faults self.new ≡ faults self.old };

    /// All bytes of the file, or None where there is no file. `TooLong` comes exactly where no fault came and the
    /// file has more than `FILE_LIMIT` bytes, and `Failed` only where the store has counted a fault.
    fn load(&mut self, alloc: Global) -> Result<Option<Bytes>, LoadError>
        requires { chosen self.old ≢ None }
        ensures loads { IfSome (held self.old) (λ file. Loads file result) }
        ensures limit { LoadsAtMost file_limit result }
        ensures chosen { chosen self.new ≡ chosen self.old }
        ensures held { held self.new ≡ held self.old }
        ensures tells { tells self.new ≡ tells self.old }
        ensures later { faults self.old ≤ faults self.new }
        ensures cause { IsErrOf result LoadError.Failed → Rose (faults self.old) (faults self.new) }
        ensures no_fault { IsErrOf result LoadError.TooLong → faults self.new ≡ faults self.old };

    /// Puts these bytes in the place of what the file held. After `Failed` what the file holds isn't told until a
    /// save succeeds.
    fn save(&mut self, bytes: &[u8]) -> Result<(), Failed>
        requires { chosen self.old ≢ None }
        ensures saved { OnOk result (IsTrue (tells self.old) → held self.new ≡ Some (Some bytes.now)) }
        ensures told { OnOk result (IsSome (held self.old) → held self.new ≡ Some (Some bytes.now)) }
        ensures failed { OnErr result (held self.new ≡ None) }
        ensures chosen { chosen self.new ≡ chosen self.old }
        ensures tells { tells self.new ≡ tells self.old }
        ensures later { faults self.old ≤ faults self.new }
        ensures cause { OnErr result (Rose (faults self.old) (faults self.new)) };
}
