//! The outside as the system has it: files as disks, TCP as links and nets, the system's clock and
//! threads. Of bytes and of files nothing is said, since no contract can say what the system gives;
//! what is said is the counts.
#![tactic(auto)]

mod file_disk;
mod system_clock;
mod tcp_link;
mod tcp_net;
mod thread_spawner;

pub use file_disk::FileDisk;
pub use system_clock::SystemClock;
pub use tcp_link::TcpLink;
pub use tcp_net::TcpNet;
pub use thread_spawner::ThreadSpawner;
