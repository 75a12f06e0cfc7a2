//! The records of a journal, their bytes, which of them can follow which, and how many bytes their
//! writes have.
#![tactic(auto)]

mod contents;
mod error;
mod fields;
mod fixed;
mod numbers;
mod reading;
mod record;
mod sizes;
mod writing;

pub use error::RecErr;
pub use fixed::{write_decided, write_front};
pub use reading::decode;
pub use record::{Decided, Rec};
pub use sizes::volume;
pub use writing::{encode, encode_parts, encode_writes};
