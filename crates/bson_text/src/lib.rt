//! Documents and values as text on one line, for messages to people.
#![tactic(auto)]

mod error;
mod laws;
mod printing;

pub use error::TextErr;
pub use laws::texts_are_one_line;
pub use printing::{print, print_value};
