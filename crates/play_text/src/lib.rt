//! The lines that are written of what a cluster does: replies, closings, messages, what is held,
//! boots, and the list of commits.
#![tactic(auto)]

mod dump;
mod text;

pub use dump::put_dump;
pub use text::{put_boot, put_closed, put_held, put_reply, put_sent};
