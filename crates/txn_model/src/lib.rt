//! What a run of a cluster is told by: its steps, and the list of commits that the shards' journals
//! make, with what a moment sees of it.
#![tactic(auto)]

mod gathering;
pub mod laws;
mod listing;
mod order;
mod ran;
mod rows;
mod viewing;

pub use listing::{add, commits, entry_of, has_entry};
pub use order::{has_moment, put_entry};
pub use ran::Ran;
pub use txn_semantics::{Answered, Entry};
pub use viewing::view;
