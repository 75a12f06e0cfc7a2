//! The last write to each document, of several lists of writes: a transaction's own writes under
//! those of a statement, and what several shards prepared.
#![tactic(auto)]

mod merging;
mod place;

pub use merging::{key_of, merged};
