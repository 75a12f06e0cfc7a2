//! Messages between nodes as frames: envelopes and batches of them, both ways.
#![tactic(auto)]

mod answers;
mod causes;
mod contents;
mod error;
mod fields;
mod filters;
mod frames;
mod messages;
mod numbers;
mod operations;
mod output;
mod spell_causes;
mod spell_contents;
mod spell_fields;
mod spell_filters;
mod spell_messages;
mod spell_operations;

pub use error::WireErr;
pub use frames::{batch_from_frame, batch_to_frame, from_frame, to_frame};
