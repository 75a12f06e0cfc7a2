//! Which shard keeps which documents: ranges of ids, by namespace; and where statements go by them.
#![tactic(auto)]

mod faults;
pub mod laws;
mod map;
mod parts;
mod place;
mod tests;

pub use map::{ChunkMap, ChunkRow, MapErr};
pub use tests::id_test;
