//! A lock round a machine, which threads share. The calls that are made under it stand in one
//! history, and each is one atomic step of the machine. A pass, which has no bytes, carries what
//! its holder knows of that history.
//!
//! The lock is fair in that tickets are served in the order in which they were drawn; no proof says
//! that a caller is ever served. Callers that wait yield and look again.
#![tactic(auto)]

mod kept;
mod law;
mod lock;
mod pass;
mod plays;

pub use kept::Kept;
pub use law::{About, Law, Stage, View};
pub use lock::{LockErr, LockOf, NodeLock, threads_may_share};
pub use machine::Machine;
pub use pass::{Pass, PassOf, Rests};
