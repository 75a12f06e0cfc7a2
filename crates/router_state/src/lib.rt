//! The state of a router: its sessions and their transactions, the shards that take part in these,
//! and what an event gives out.
#![tactic(auto)]

mod copies;
mod deed;
mod sessions;
mod shards;
mod state;
mod table;

pub use copies::{copy_answers, copy_participants, copy_posts, copy_told};
pub use deed::{Deed, Given, Sent, in_session, told, told_if};
pub use sessions::{entry_of, is_waiting};
pub use shards::{
    boot_of, has_written, is_waited, put_answer, put_participant, readers, same_tag, tag_cmp,
    token_of, with_shards, without, writers,
};
pub use state::{
    Answers, Asker, Doing, Participants, Phase, Posts, Seeking, Session, Tags, Transaction,
    asker_in, asker_of, commit_sent, is_from, is_own, is_unfinished,
};
pub use table::{Table, copy_table, put_entry};
