//! A project under the commands of an editor: edits, answers, and the canonical text.
#![tactic(auto)]

mod edits;
mod errors;
mod judging;
mod laws;
mod limits;
mod lookup;
mod places;
mod replies;
mod session;
mod stepping;

pub use edits::{Edit, edit_project};
pub use errors::{EditError, Limit, Refusal};
pub use laws::{kept, one_answer, reads_back};
pub use replies::{accepted, refused, unread};
pub use session::Session;
pub use stepping::Answer;
