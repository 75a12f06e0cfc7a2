//! Commands of clients: what a message asks.
#![tactic(auto)]

mod error;
mod fields;
mod reading;
mod request;
mod times;
mod tokens;

pub use error::CmdErr;
pub use reading::read_command;
pub use request::{Lsids, Request, Txn};
