//! The loop of one connection to a node: it cuts the peer's bytes into messages, makes each an
//! event of the node's machine, gives it to the machine under the node's lock, and writes what its
//! Talk gives before it reads the next message.
#![tactic(auto)]

mod calling;
mod ended;
mod incoming;
mod log;
mod serving;
mod talk;
mod wait_room;

pub use ended::Ended;
pub use log::{Log, LogOf};
pub use serving::serve_connection;
pub use talk::{Next, NextOf, Talk, TalkErr};
pub use wait_room::WaitRoom;
