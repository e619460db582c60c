//! All that the program does, over any input, output and store.
#![tactic(auto)]

mod running;
mod serving;
mod status;
mod words;
mod writing;

pub use running::run;
pub use status::{Status, code, message};
pub use words::Mode;
