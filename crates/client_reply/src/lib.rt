//! Replies to clients: documents, codes, labels and texts.
#![tactic(auto)]

mod copies;
mod documents;
mod errors;
mod fields;
mod reply;
mod texts;
mod tokens;
mod writing;

pub use errors::{Code, Label};
pub use reply::{Refusal, Reply};
pub use writing::write_reply;
