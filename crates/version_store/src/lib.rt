//! Versions of documents: of each document what was committed, newest first, and what a transaction
//! that isn't finished has written.
#![tactic(auto)]

mod chain;
mod collection;
mod key;
mod laid;
mod pending;
mod refusal;
mod store;
mod version;

pub use key::{Key, Keys, copy_keys};
pub use pending::forget;
pub use refusal::{PutErr, ScanErr};
pub use store::Store;
pub use version::{Held, Pending, Pendings, Stamp, Version, copy_pendings};
