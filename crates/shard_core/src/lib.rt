//! A shard's core: what an event changes, what is to be made durable, and what is given out.
#![tactic(auto)]

mod coordinating;
mod deciding;
mod delivering;
mod given;
mod journalled;
pub mod laws;
mod memory;
mod participating;
mod saving;
mod shard;
mod stating;
mod step;
mod time;

pub use journalled::Journalled;
pub use shard::Shard;
pub use step::{Outbox, Step, StepErr};
