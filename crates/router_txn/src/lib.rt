//! Transactions at a router: how their statements are sent to shards and answered, how they are
//! committed, also by a token, and how they are ended.
#![tactic(auto)]

mod commits;
mod ends;
mod refusals;
mod resends;
mod serving;
mod statements;
mod tokens;
mod turns;

pub use commits::commit_asked;
pub use ends::{client_aborts, ends_session, gone_from, leaves};
pub use resends::unanswered;
pub use serving::{answered_in, ended_in};
pub use statements::asks;
pub use tokens::seeks_by;
