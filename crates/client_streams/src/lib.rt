//! The connections of clients: the bytes that come on each are cut into messages, and one message
//! at a time is served.
#![tactic(auto)]

mod connection;
mod connections;

pub use connection::Turn;
pub use connections::Connections;
