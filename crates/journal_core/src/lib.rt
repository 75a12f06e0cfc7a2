//! A journal: a list of payloads on a disk, each acknowledged only once it is there for good. A
//! crash at any moment leaves the acknowledged ones, or these with the one in hand, and nothing
//! else.
#![tactic(auto)]

mod append;
mod error;
mod journal;
mod laws;
mod mend;
mod read;
mod start;
mod walk;

pub use error::JournalErr;
pub use journal::{Journal, MOST_PAYLOAD};
pub use laws::{
    an_unfit_frame_is_refused, another_header_is_refused, frames_are_read, payloads_stand_in_order,
    what_is_left_is_read, what_is_whole_is_left,
};
