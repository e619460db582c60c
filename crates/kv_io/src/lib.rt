//! The outside of the program: where bytes come from, where they go, and where a project is kept.
#![tactic(auto)]

mod calls;
mod held;
mod lines;
mod mem_sink;
mod mem_source;
mod mem_store;
mod outside;
mod reading;
mod scan;
mod standard;

pub use lines::{Lines, Next, next_command};
pub use mem_sink::MemSink;
pub use mem_source::MemSource;
pub use mem_store::MemStore;
pub use outside::{FILE_LIMIT, Failed, LoadError, Sink, Source, Store};
pub use reading::{COMMAND_LIMIT, INPUT_LIMIT, READ_SIZE};
pub use standard::{FileStore, StdSink, StdSource};
