//! Messages of the MongoDB wire protocol: OP_MSG, with sections and flags, and the older OP_QUERY
//! and OP_REPLY, in which clients say their first word; and streams of them.
#![tactic(auto)]

mod asking;
mod feeder;
mod frame;
mod header;
mod laws;
mod reading;
mod words;
mod writing;

pub use asking::{is_legacy, request_id, wants_reply};
pub use feeder::{Feeder, cuts_dont_matter, messages_come_out, no_byte_is_lost};
pub use frame::{Frame, FrameErr, Seqs};
pub use laws::{
    message_has_no_fault, messages_are_told_apart, reading_undoes_writing,
    written_frame_is_a_message,
};
pub use reading::read_frame;
pub use writing::write_frame;
