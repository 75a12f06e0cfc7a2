//! Sessions: of each the number and the tag of its newest transaction here, and how that stands.
#![tactic(auto)]

mod key;
mod session;
mod table;

pub use key::{compare_lsids, is_same_lsid, is_same_tag};
pub use session::{Session, SessionErr, SessionState};
pub use table::Sessions;
