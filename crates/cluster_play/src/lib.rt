//! Schedules played over a whole cluster: its nodes start from the disks handed in, what each line
//! asks is done, and what comes of it is written.
#![tactic(auto)]

mod disks;
mod front;
mod listing;
mod nodes;
mod play;
mod renew;
mod status;
mod step;
mod stop;
mod turn;

pub use play::play_input;
pub use status::Status;
