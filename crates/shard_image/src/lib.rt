//! The state that the records of a journal leave at a shard: boots and ceilings, sessions,
//! versions, prepared transactions and what is coordinated, one record after the other.
#![tactic(auto)]

mod change;
mod image;
pub mod laws;
mod order;

pub use change::{apply, image_of};
pub use image::{Image, ImageErr, Place};
pub use order::can_follow;
